//! Cells of a matrix under construction, row by row, counted as they are added.

ghost use Rattle.std.specs.Prelude.{◌≡◌, ◌≤◌, ◌<◌, ◌+◌, ◌++◌, ◌∷◌, [], ℕ, None, length, map, nat_le, OnOk, IfOk, IfSome};
ghost use Rattle.definitions.specs.Sets.{cell_of};
ghost use Rattle.alloc_input.specs.Cells.{with_rectangle};
ghost use Rattle.alloc_input.specs.Checks.{Checks, need};
ghost use Rattle.alloc_input.specs.Marked.{IsMarked, IsGrown, marked_cells, row_of};
ghost use Rattle.alloc_input.specs.Numbers.{AddsNumbers, AreNumbersBelow, AreSetIn};
ghost use Rattle.alloc_input.specs.declared.faults.InputKind.TheVariants as kind;

use crate::faults::{InputKind, Stop};
use crate::fields::need;
use crate::quotas::numbers::{NumberSet, Plane, plane_of};
use definitions::Cell;
use std::alloc::{AllocError, Global};

/// A set of cells of a matrix that grows: for each agent the columns of its row, once there are any.
#[derive(Drop)]
pub(crate) struct Marks {
    pub agents: u32,
    pub columns: u32,
    pub rows: Vec<NumberSet>,
    pub count: usize,
}

impl Marks {
    /// No cells.
    pub fn new(alloc: Global, agents: u32, columns: u32) -> Marks
        ensures marked { IsMarked result }
        ensures none { marked_cells result ≡ [] }
        ensures size { (result.agents ≡ agents) × (result.columns ≡ columns) }
    {
        Marks {
            agents,
            columns,
            rows: Vec::new(alloc),
            count: 0,
        }
    }
}

// Adds columns to a row of a set with so many cells, and answers how many it has then. A full row is left as it is.
fn add_to_row(
    row: &mut NumberSet,
    below: u32,
    columns: &[u32],
    plane: Option<Plane>,
    count: usize,
) -> Result<usize, AllocError>
    requires plane { IfSome plane (AreSetIn below columns.now) }
    requires below { AreNumbersBelow below row.old }
    requires part { length row.old ≤ count }
    requires few { count ≤ 1000000 }
    ensures adds { OnOk result (AddsNumbers below columns.now row.old row.new) }
    ensures below { OnOk result (AreNumbersBelow below row.new) }
    ensures count { IfOk result (λ n. n + length row.old ≡ count + length row.new) }
{
    let before = row.len();
    if before == below as usize {
        return Ok(count);
    }
    row.add(below, columns, plane)?;
    Ok(count - before + row.len())
}

// Adds columns to the row of one agent.
fn mark_agent(
    marks: &mut Marks,
    agent: u32,
    columns: &[u32],
    plane: Option<Plane>,
) -> Result<(), AllocError>
    requires plane { IfSome plane (AreSetIn marks.old.columns columns.now) }
    requires marked { IsMarked marks.old }
    requires filled { length marks.old.rows.items ≡ marks.old.agents }
    requires few { marks.old.count ≤ 1000000 }
    ensures cells { OnOk result (marked_cells marks.new ≡ with_rectangle marks.old.agents marks.old.columns (agent ∷ []) columns.now (marked_cells marks.old)) }
    ensures grown { OnOk result (IsGrown marks.old marks.new) }
    ensures filled { OnOk result (length marks.new.rows.items ≡ marks.new.agents) }
{
    if agent >= marks.agents {
        return Ok(());
    }
    let below = marks.columns;
    let count = marks.count;
    let row = &mut marks.rows[agent as usize];
    let count = add_to_row(row, below, columns, plane, count)?;
    marks.count = count;
    Ok(())
}

// Makes room for the row of each agent.
fn fill(alloc: Global, marks: &mut Marks) -> Result<(), AllocError>
    requires marked { IsMarked marks.old }
    ensures cells { OnOk result (marked_cells marks.new ≡ marked_cells marks.old) }
    ensures grown { OnOk result (IsGrown marks.old marks.new) }
    ensures filled { OnOk result (length marks.new.rows.items ≡ marks.new.agents) }
    ensures count { OnOk result (marks.new.count ≡ marks.old.count) }
{
    for _i in marks.rows.len()..marks.agents as usize {
        marks.rows.push(NumberSet::new(alloc))?;
    }
    Ok(())
}

// Adds the cells of a rectangle, row by row, until there are more than so many.
fn mark_rows(
    marks: &mut Marks,
    agents: &[u32],
    columns: &[u32],
    plane: Option<Plane>,
    most: usize,
) -> Result<(), Stop>
    requires plane { IfSome plane (AreSetIn marks.old.columns columns.now) }
    requires marked { IsMarked marks.old }
    requires filled { length marks.old.rows.items ≡ marks.old.agents }
    requires within { marks.old.count ≤ most }
    requires few { most ≤ 1000000 }
    ensures checked { let after = with_rectangle marks.old.agents marks.old.columns agents.now columns.now (marked_cells marks.old) in
        Checks result (need (nat_le (length after) most) kind.OverLimit) (λ _. (marked_cells marks.new ≡ after) × IsGrown marks.old marks.new) }
    ensures few { OnOk result (marks.new.count ≤ most) }
{
    for agent in agents {
        mark_agent(marks, *agent, columns, plane)?;
        need(marks.count <= most, InputKind::OverLimit)?;
    }
    Ok(())
}

/// Adds the cells of a rectangle. It is over the limit where there are more than so many cells then.
pub(crate) fn mark(
    alloc: Global,
    marks: &mut Marks,
    agents: &[u32],
    columns: &[u32],
    most: usize,
) -> Result<(), Stop>
    requires marked { IsMarked marks.old }
    requires within { marks.old.count ≤ most }
    requires few { most ≤ 1000000 }
    ensures checked { let after = with_rectangle marks.old.agents marks.old.columns agents.now columns.now (marked_cells marks.old) in
        Checks result (need (nat_le (length after) most) kind.OverLimit) (λ _. (marked_cells marks.new ≡ after) × IsGrown marks.old marks.new) }
    ensures few { OnOk result (marks.new.count ≤ most) }
{
    if marks.count as u64 == marks.agents as u64 * marks.columns as u64 {
        return Ok(());
    }
    fill(alloc, marks)?;
    let plane = plane_of(marks.columns, columns);
    mark_rows(marks, agents, columns, plane, most)
}

// Adds the cells of one row to a list.
fn push_row(rows: &[NumberSet], agent: u32, cells: &mut Vec<Cell>) -> Result<(), AllocError>
    ensures { OnOk result (cells.new.items ≡ cells.old.items ++ map (cell_of agent) (row_of rows.now agent)) }
{
    match rows.get(agent as usize) {
        Some(row) => row.push_cells(agent, cells),
        None => Ok(()),
    }
}

/// The cells in a list, by agent and then column.
pub(crate) fn list_cells(alloc: Global, marks: &Marks) -> Result<Vec<Cell>, AllocError>
    requires { IsMarked marks.now }
    ensures { IfOk result (λ v. v.items ≡ marked_cells marks.now) }
{
    let mut cells = Vec::new(alloc);
    for i in 0..marks.agents {
        push_row(marks.rows.as_slice(), i, &mut cells)?;
    }
    Ok(cells)
}
