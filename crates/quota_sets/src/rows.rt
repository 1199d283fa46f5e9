//! The agents' rows as sets. Stated sets are not known here.

ghost use Rattle.std.specs.Prelude.{◌≡◌, ◌+◌, ◌*◌, ◌<◌, ◌≤◌, ◌++◌, length, All, IfOk, OnOk};
ghost use Rattle.definitions.specs.Sets.{IsFamily, cells_in, row_cells};
ghost use Rattle.definitions.specs.Values.{row_sets};

use crate::family::{Family, InsertFault};
use crate::quota_set::QuotaSet;
use definitions::Cell;
use std::alloc::{AllocError, Global};

// Adds the row of each agent, with its demand as floor and ceiling.
pub fn add_rows(
    alloc: Global,
    family: &mut Family,
    agents: u32,
    columns: u32,
    demands: &[u32],
) -> Result<(), AllocError>
    requires lawful { IsFamily family.old }
    requires agents { family.old.agents ≡ agents }
    requires columns { family.old.columns ≡ columns }
    requires demands { length demands.now ≡ agents }
    requires demand { All (λ d. d ≤ 1000) demands.now }
    requires sets { length family.old.sets + agents ≤ 2000 }
    requires cells { cells_in family.old.sets + agents * columns ≤ 1201000 }
    ensures added { OnOk result (family.new
        ≡ record family.old { sets = family.old.sets ++ row_sets columns demands.now }) }
    ensures lawful { OnOk result (IsFamily family.new) }
{
    for agent in 0..agents {
        let row = row_of(alloc, agent, columns, demands[agent as usize])?;
        match family.insert(row) {
            Ok(_) => {}
            Err(InsertFault::NoMemory(_)) => return Err(AllocError),
            Err(InsertFault::TooManySets(_)) => unreachable!(),
            Err(InsertFault::TooManyCells(_)) => unreachable!(),
        }
    }
    Ok(())
}

// The row of an agent, with its demand as floor and ceiling.
fn row_of(alloc: Global, agent: u32, columns: u32, demand: u32) -> Result<QuotaSet, AllocError>
    requires { demand ≤ 1000 }
    ensures { IfOk result (λ s. s
        ≡ record {
          side = 1;
          floor = demand;
          ceiling = demand;
          cells = row_cells columns agent;
        }) }
{
    let cells = cells_of_row(alloc, agent, columns)?;
    Ok(QuotaSet::new(1, demand, demand, cells))
}

// The cells of an agent's row.
fn cells_of_row(alloc: Global, agent: u32, columns: u32) -> Result<Vec<Cell>, AllocError>
    ensures { IfOk result (λ cells. cells.items ≡ row_cells columns agent) }
{
    let mut cells = Vec::new(alloc);
    for object in 0..columns {
        cells.push(Cell { agent, object })?;
    }
    Ok(cells)
}
