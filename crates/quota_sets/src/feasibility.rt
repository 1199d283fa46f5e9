//! Whether a matrix keeps the quotas of a family.

ghost use Rattle.std.specs.Prelude.{◌≡◌, ◌*◌, ◌<◌, ◌⊎◌, ◌↔◌, IsTrue, IsOk, IfErr};
ghost use Rattle.definitions.specs.Sets.{IsInRange, IsFeasible, IsFirstInfeasible, units_of, set_sum};

use crate::family::Family;
use crate::matrix::Scaled;
use crate::quota_set::QuotaSet;
use definitions::Infeasible;

impl Scaled {
    /// Whether the units in each set of a family of the matrix's shape lie within floor and ceiling
    /// times the denominator. Where they do not, the first such set by number is answered, with its
    /// units.
    pub fn meets(&self, family: &Family) -> Result<(), Infeasible>
        requires agents { self.now.agents ≡ family.now.agents }
        requires columns { self.now.columns ≡ family.now.columns }
        ensures feasible { IsOk result ↔ IsFeasible family.now self.now }
        ensures first { IfErr result (λ e. IsFirstInfeasible family.now self.now e.set e.sum) }
    {
        for place in 0..family.len() {
            let quotas = family.get(place + 1).unwrap();
            let sum = self.sum_over(quotas);
            if self.breaks(quotas, sum) {
                return Err(Infeasible {
                    set: place + 1,
                    sum,
                });
            }
        }
        Ok(())
    }

    // The units in all cells of a set.
    pub(crate) fn sum_over(&self, set: &QuotaSet) -> u128
        requires { IsInRange self.now.agents self.now.columns set.now }
        ensures { result ≡ set_sum (units_of self.now) set.now.cells }
    {
        let mut total = 0;
        for cell in set.cells() {
            total += self.at(*cell);
        }
        total
    }

    // Whether so many units break the quotas of a set.
    fn breaks(&self, set: &QuotaSet, sum: u128) -> bool
        ensures { IsTrue result ↔ ((sum < set.now.floor * self.now.denominator)
            ⊎ (set.now.ceiling * self.now.denominator < sum)) }
    {
        let one = self.denominator();
        sum < u128::from(set.floor()) * one || u128::from(set.ceiling()) * one < sum
    }
}
