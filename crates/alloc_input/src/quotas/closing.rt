//! The family that open sets become.

ghost use Rattle.std.specs.Prelude.{◌≡◌, ◌≤◌, ◌+◌, ◌++◌, ◌∷◌, [], All, IfOk, OnOk, if◌then◌else◌};
ghost use Rattle.alloc_input.specs.Marked.{IsMarked};
ghost use Rattle.alloc_input.specs.Reading.{AreQuotas, IsOpen, set_value, values};

use crate::quotas::marks::list_cells;
use crate::quotas::open_sets::OpenSet;
use quota_sets::{Family, QuotaSet};
use std::alloc::{AllocError, Global};

// The set that an open set has become.
fn close_set(alloc: Global, set: &OpenSet) -> Result<QuotaSet, AllocError>
    requires marked { IsMarked set.now.marks }
    requires quotas { AreQuotas set.now.side set.now.floor set.now.ceiling }
    ensures { IfOk result (λ s. s ≡ set_value set.now) }
{
    let cells = list_cells(alloc, &set.marks)?;
    Ok(QuotaSet::new(set.side, set.floor, set.ceiling, cells))
}

// Adds the set that an open set has become.
fn add_closed(
    alloc: Global,
    set: &OpenSet,
    objects: u32,
    family: &mut Family,
) -> Result<(), AllocError>
    requires opened { IsOpen family.old.agents objects set.now }
    requires wide { objects ≤ family.old.columns }
    ensures { OnOk result (family.new ≡ record family.old { sets = family.old.sets ++ set_value set.now ∷ [] }) }
{
    let closed = close_set(alloc, set)?;
    family.insert(closed).map_err(|_| AllocError)?;
    Ok(())
}

/// The family of the sets that some open sets have become.
pub(crate) fn close_family(
    alloc: Global,
    sets: &[OpenSet],
    agents: u32,
    objects: u32,
    columns: u32,
) -> Result<Family, AllocError>
    requires agents { agents ≤ 1000 }
    requires columns { columns ≤ 201 }
    requires wide { objects ≤ columns }
    requires opened { All (IsOpen agents objects) sets.now }
    ensures { IfOk result (λ f. f ≡ record { agents = agents; columns = columns; sets = values sets.now }) }
{
    let mut family = Family::new(alloc, agents, columns);
    for i in 0..sets.len() {
        add_closed(alloc, &sets[i], objects, &mut family)?;
    }
    Ok(family)
}

/// The columns of a family: there is one more than objects for `solve`.
pub(crate) fn column_count(objects: u32, solve: bool) -> u32
    requires { objects ≤ 200 }
    ensures value { result ≡ objects + (if solve then 1 else 0) }
    ensures within { result ≤ 201 }
    ensures wide { objects ≤ result }
{
    if solve { objects + 1 } else { objects }
}
