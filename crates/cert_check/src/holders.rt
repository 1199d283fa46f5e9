//! For each cell, the sets of a family that hold it.
//!
//! The table has a row of 201 places for each agent, whatever the columns are, so that a cell's place depends on the
//! cell alone.

ghost use Rattle.std.specs.Prelude.{◌≡◌, ℕ, ◌<◌, ◌+◌, ◌*◌, ◌==◌, [], All, count_by, if◌then◌else◌, length, map, IfOk, OnOk};
ghost use Rattle.definitions.specs.Sets.{cell_index, cell_of};
ghost use Rattle.cert_check.specs.HolderTables.{AreHolders, lists_of, times_in};

use crate::totals::COLUMNS;
use quota_sets::{Cell, Family, NoMemory};
use std::alloc::Global;

// Where a cell stands in a table with a row of 201 places for each agent.
pub fn place_of(agent: u32, object: u32) -> usize
    ensures { result ≡ cell_index 201 (cell_of agent object) }
{
    agent as usize * COLUMNS + object as usize
}

// So many empty lists.
fn empty_lists(alloc: Global, count: usize) -> Result<Vec<Vec<u32>>, NoMemory>
    ensures many { IfOk result (λ lists. length lists.items ≡ count) }
    ensures empty { IfOk result (λ lists. All (λ list. list ≡ []) (lists_of lists.items)) }
{
    let mut lists = Vec::new(alloc);
    for _ in 0..count {
        lists.push(Vec::new(alloc))?;
    }
    Ok(lists)
}

// Enters a set at each of its cells.
fn enter(index: u32, cells: &[Cell], lists: &mut [Vec<u32>]) -> Result<(), NoMemory>
    requires { All (λ c. cell_index 201 c < length lists.old) cells.now }
    ensures { OnOk result ((place set : ℕ) → place < length lists.old
        → times_in (lists_of lists.new) place set ≡ times_in (lists_of lists.old) place set
        + (if index == set then count_by (λ c. cell_index 201 c == place) cells.now else 0)) }
{
    for i in 0..cells.len() {
        let place = place_of(cells[i].agent, cells[i].object);
        lists[place].push(index)?;
    }
    Ok(())
}

/// For each cell the indices of the sets that hold it.
///
/// # Errors
/// `NoMemory` where there is no memory for them.
pub fn holders(alloc: Global, family: &Family) -> Result<Vec<Vec<u32>>, NoMemory>
    ensures { IfOk result (λ lists. AreHolders family.now (lists_of lists.items)) }
{
    let mut lists = empty_lists(alloc, family.agents() as usize * COLUMNS)?;
    for index in 0..family.len() {
        let cells = family.get(index + 1).unwrap().cells();
        enter(index, cells, &mut lists)?;
    }
    Ok(lists)
}
