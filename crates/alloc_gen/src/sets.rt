//! The stated sets of a made problem.

ghost use Rattle.std.specs.Prelude.{◌≡◌, ◌+◌, ◌*◌, ◌<◌, ◌≤◌, ◌++◌, length, map, IfOk, OnOk};
ghost use Rattle.std.specs.List.{range_with_len};
ghost use Rattle.definitions.specs.Sets.{cells_in};
ghost use Rattle.alloc_gen.specs.Made.{made_family};
ghost use Rattle.alloc_gen.specs.MadeSets.{column_cells, column_part};

use quota_sets::{Cell, Family, InsertFault, QuotaSet};
use std::alloc::{AllocError, Global};

// The family of the stated sets of so many agents and objects.
pub fn make_sets(alloc: Global, agents: u32, objects: u32) -> Result<Family, AllocError>
    requires agents { agents ≤ 1000 }
    requires some { 1 ≤ objects }
    requires objects { objects ≤ 200 }
    ensures { IfOk result (λ f. f ≡ made_family agents objects) }
{
    let share = agents.div_ceil(objects);
    let half = (share / 2).max(1);
    let every_second = agents.div_ceil(2);
    let mut family = Family::new(alloc, agents, objects + 1);
    add_parts(alloc, &mut family, objects, agents, 1, share)?;
    add_parts(alloc, &mut family, objects, every_second, 2, half)?;
    Ok(family)
}

// Adds a set for each of so many columns: so many cells of it, of every step-th agent.
fn add_parts(
    alloc: Global,
    family: &mut Family,
    columns: u32,
    count: u32,
    step: u32,
    ceiling: u32,
) -> Result<(), AllocError>
    requires limit { family.old.agents ≤ 1000 }
    requires columns { columns ≤ family.old.columns }
    requires step { 1 ≤ step }
    requires step_limit { step ≤ 1000 }
    requires agents { step * count < family.old.agents + step }
    requires ceiling { ceiling ≤ 1000 }
    requires sets { length family.old.sets + columns ≤ 2000 }
    requires cells { cells_in family.old.sets + columns * count ≤ 1201000 }
    ensures { OnOk result (family.new ≡ record family.old {
      sets = family.old.sets ++ map (column_part count step ceiling) (range_with_len 0 columns);
    }) }
{
    for column in 0..columns {
        let part = part_of_column(alloc, count, step, column, ceiling)?;
        match family.insert(part) {
            Ok(_) => {}
            Err(InsertFault::NoMemory(_)) => return Err(AllocError),
            Err(InsertFault::TooManySets(_)) => unreachable!(),
            Err(InsertFault::TooManyCells(_)) => unreachable!(),
        }
    }
    Ok(())
}

// So many cells of a column, of every step-th agent, as a set.
fn part_of_column(
    alloc: Global,
    count: u32,
    step: u32,
    column: u32,
    ceiling: u32,
) -> Result<QuotaSet, AllocError>
    requires step { 1 ≤ step }
    requires within { step * count ≤ 2000 }
    requires ceiling { ceiling ≤ 1000 }
    ensures { IfOk result (λ set. set ≡ column_part count step ceiling column) }
{
    let cells = cells_of_column(alloc, count, step, column)?;
    Ok(QuotaSet::new(2, 0, ceiling, cells))
}

// So many cells of a column, of every step-th agent.
fn cells_of_column(
    alloc: Global,
    count: u32,
    step: u32,
    column: u32,
) -> Result<Vec<Cell>, AllocError>
    requires { step * count ≤ 2000 }
    ensures { IfOk result (λ cells. cells.items ≡ column_cells count step column) }
{
    let mut cells = Vec::new(alloc);
    for place in 0..count {
        let agent = step * place;
        cells.push(Cell {
            agent,
            object: column,
        })?;
    }
    Ok(cells)
}
