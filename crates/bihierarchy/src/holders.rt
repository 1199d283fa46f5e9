// The deepest set of a side at each cell, as a table. It doesn't ask whether sets cross, and knows no parents.

ghost use Rattle.std.specs.Prelude.{◌+◌, IfOk, length};
ghost use Rattle.definitions.specs.Sets.{IsSet, set_side};
ghost use Rattle.bihierarchy.specs.Tables.{AreDeepest};

use crate::overlap::{cells_of, is_least, side_of};
use quota_sets::Family;
use std::alloc::{AllocError, Global};

/// Enters a set at each of its cells where it comes before the set that stands there.
fn enter(family: &Family, set: u32, table: &mut [Option<u32>])
    requires known { IsSet family.now set }
    requires before { AreDeepest family.now (set_side family.now set) set table.old }
    ensures { AreDeepest family.now (set_side family.now set) (set + 1) table.new }
{
    let columns = family.columns();
    for cell in cells_of(family, set) {
        let place = cell.agent as usize * columns as usize + cell.object as usize;
        if is_least(family, set, table[place]) {
            table[place] = Some(set);
        }
    }
}

/// For each cell, row by row, the set of a side that holds it and is the least by size and then number.
pub(crate) fn deepest_of(
    alloc: Global,
    family: &Family,
    side: u8,
) -> Result<Vec<Option<u32>>, AllocError>
    ensures { IfOk result (λ deepest.
        AreDeepest family.now side (length family.now.sets + 1) deepest.items) }
{
    let cells = family.agents() as usize * family.columns() as usize;
    let mut deepest = vec![in alloc; None; cells]?;
    for set in 1..family.len() + 1 {
        if side_of(family, set) == side {
            enter(family, set, &mut deepest);
        }
    }
    Ok(deepest)
}
