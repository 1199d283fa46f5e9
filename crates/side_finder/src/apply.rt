//! A family with other sides.

ghost use Rattle.std.specs.Prelude.{◌≡◌, ◌⊎◌, IfOk};
ghost use Rattle.definitions.specs.Sets.{cells_of};
ghost use Rattle.side_laws.specs.Rings.{AreSidesFor};
ghost use Rattle.side_finder.specs.Applied.{set_with_side, with_sides};

use crate::SideFault;
use quota_sets::{Family, InsertFault, QuotaSet};
use std::alloc::{AllocError, Global};

/// The family with these sides in place of its own, one for each set in the order of the family. All else is as it was.
pub fn apply_sides(alloc: Global, family: &Family, sides: &[u8]) -> Result<Family, SideFault>
    requires { AreSidesFor (cells_of family.now) sides.now }
    ensures { IfOk result (λ f. f ≡ with_sides family.now sides.now) }
{
    let mut applied = Family::new(alloc, family.agents(), family.columns());
    for number in 1..family.len() + 1 {
        let set = copy_with_side(
            alloc,
            family.get(number).unwrap(),
            sides[number as usize - 1],
        )?;
        match applied.insert(set) {
            Ok(_) => {}
            Err(InsertFault::NoMemory(_)) => return Err(SideFault::NoMemory),
            Err(InsertFault::TooManySets(_)) => unreachable!(),
            Err(InsertFault::TooManyCells(_)) => unreachable!(),
        }
    }
    Ok(applied)
}

/// A copy of a set with another side.
fn copy_with_side(alloc: Global, set: &QuotaSet, side: u8) -> Result<QuotaSet, AllocError>
    requires { (side ≡ 1) ⊎ (side ≡ 2) }
    ensures { IfOk result (λ s. s ≡ set_with_side set.now side) }
{
    let cells = set.cells().to_vec(alloc)?;
    Ok(QuotaSet::new(side, set.floor(), set.ceiling(), cells))
}
