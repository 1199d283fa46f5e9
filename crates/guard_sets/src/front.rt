//! The set of an agent's first places.

ghost use Rattle.std.specs.Prelude.{◌≡◌, ◌<◌, ◌≤◌, length, filter, nat_eq, All, IfOk};
ghost use Rattle.std.specs.Set.{is_member};
ghost use Rattle.definitions.specs.Sets.{IsCellWithin, IsRising, row_cells, set_sum, units_of};
ghost use Rattle.definitions.specs.Values.{list_at};
ghost use Rattle.definitions.specs.Fairness.{prefix_set};
ghost use Rattle.guard_sets.specs.Guard.{IsAssigned};

use quota_sets::{Cell, Problem, QuotaSet, Scaled};
use std::alloc::{AllocError, Global};

// Whether a column is one of these.
fn is_among(front: &[u32], object: u32) -> bool
    ensures { result ≡ is_member nat_eq front.now object }
{
    front.contains(&object)
}

// The cells of an agent in these columns, rising by column.
fn front_cells(
    alloc: Global,
    agent: u32,
    front: &[u32],
    columns: u32,
) -> Result<Vec<Cell>, AllocError>
    ensures { IfOk result (λ cells. cells.items
        ≡ filter (λ c. is_member nat_eq front.now c.object) (row_cells columns agent)) }
{
    let mut cells = Vec::new(alloc);
    for object in 0..columns {
        if is_among(front, object) {
            cells.push(Cell { agent, object })?;
        }
    }
    Ok(cells)
}

// The units of a matrix in all of these cells.
fn units_in(x: &Scaled, cells: &[Cell]) -> u128
    requires rise { IsRising cells.now }
    requires inside { All (IsCellWithin x.now.agents x.now.columns) cells.now }
    ensures { result ≡ set_sum (units_of x.now) cells.now }
{
    let mut units = 0;
    for cell in cells {
        units += x.at(*cell);
    }
    units
}

/// The set of an agent's first places: its quotas are its units over the denominator, rounded down and up.
pub fn front_set(
    alloc: Global,
    problem: &Problem,
    x: &Scaled,
    agent: u32,
    places: usize,
) -> Result<QuotaSet, AllocError>
    requires given { IsAssigned problem.now x.now }
    requires agent { agent < length problem.now.agents }
    requires places { places ≤ length (list_at problem.now agent) }
    ensures { IfOk result (λ s. s ≡ prefix_set problem.now x.now agent places) }
{
    let list = problem.list(agent);
    let cells = front_cells(alloc, agent, &list[..places], x.columns())?;
    let units = units_in(x, &cells);
    let one = x.denominator();
    let floor = (units / one) as u32;
    let ceiling = ((units + one - 1) / one) as u32;
    Ok(QuotaSet::new(1, floor, ceiling, cells))
}
