// The parent of each set, as a table. It doesn't ask whether sets cross, and reads no cell.

ghost use Rattle.std.specs.Prelude.{◌≡◌, IfOk, MatchOption};
ghost use Rattle.definitions.specs.Hierarchies.{HasNoParent, IsParent};
ghost use Rattle.definitions.specs.Sets.{IsSet};
ghost use Rattle.bihierarchy.specs.Tables.{AreParents};

use crate::overlap::{cells_of, is_above, is_least};
use quota_sets::Family;
use std::alloc::{AllocError, Global};

/// The least set above a set by size and then number. An empty set has none.
fn parent_of(family: &Family, set: u32) -> Option<u32>
    requires { IsSet family.now set }
    ensures { MatchOption result (HasNoParent family.now set) (IsParent family.now set) }
{
    if cells_of(family, set).is_empty() {
        return None;
    }
    let mut parent = None;
    for upper in 1..family.len() + 1 {
        if is_least(family, upper, parent) && is_above(family, set, upper) {
            parent = Some(upper);
        }
    }
    parent
}

/// The parent of each set, by number.
pub(crate) fn parents_of(alloc: Global, family: &Family) -> Result<Vec<Option<u32>>, AllocError>
    ensures { IfOk result (λ parents. AreParents family.now parents.items) }
{
    let mut parents = Vec::new(alloc);
    for set in 1..family.len() + 1 {
        parents.push(parent_of(family, set))?;
    }
    Ok(parents)
}
