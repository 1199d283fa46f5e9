//! Sums of a matrix over rows and stated sets.

ghost use Rattle.std.specs.Prelude.{◌≡◌, ◌<◌, ◌*◌, length};
ghost use Rattle.definitions.specs.Sets.{IsScaledMatrix, row_sum, units_of};
ghost use Rattle.definitions.specs.Values.{IsProblem};
ghost use Rattle.cert_check.specs.PriceFaults.{IsProblemMatrix, stated_at, stated_sum, stated_room};

use quota_sets::{Cell, Problem, QuotaSet, Scaled};

// The units of an agent's row.
pub fn row_units(x: &Scaled, agent: u32) -> u128
    requires { agent < x.now.agents }
    ensures { result ≡ row_sum (units_of x.now) x.now.columns agent }
{
    let mut total = 0;
    for object in 0..x.columns() {
        total += x.at(Cell { agent, object });
    }
    total
}

// The stated set at this index.
pub fn stated(problem: &Problem, index: u32) -> &QuotaSet
    requires { index < problem.now.stated }
    ensures value { result.now ≡ stated_at problem.now index }
    ensures lawful { IsProblem problem.now }
{
    problem.family().get(index + 1).unwrap()
}

// The units in the stated set at this index.
pub fn stated_units(problem: &Problem, x: &Scaled, index: u32) -> u128
    requires given { IsProblemMatrix problem.now x.now }
    requires index { index < problem.now.stated }
    ensures { result ≡ stated_sum problem.now x.now index }
{
    problem.family().sum(index + 1, x)
}

// The units that the stated set at this index may have.
pub fn stated_units_allowed(problem: &Problem, x: &Scaled, index: u32) -> u128
    requires { index < problem.now.stated }
    ensures { result ≡ stated_room problem.now x.now index }
{
    u128::from(stated(problem, index).ceiling()) * x.denominator()
}
