//! Check 17: the weighted sum of the pieces at each cell is the units of the matrix.

ghost use Rattle.std.specs.Prelude.{◌≡◌, ℕ, ◌<◌, ◌+◌, ◌*◌, ◌==◌, ◌^◌, All, filter, length, replicate, slice_index};
ghost use Rattle.definitions.specs.Sets.{cell_of};
ghost use Rattle.definitions.specs.Firsts.{first_in};
ghost use Rattle.cert_check.specs.PieceFaults.{ArePiecesOf, AreRising, AreTotals, IsSmallMatrix, given_in, met_fault, met_look, pieces_value};

use crate::counts;
use crate::faults::Fault;
use crate::total_table::met_in_memory;
use quota_sets::{Cell, Give, Pieces, Scaled};
use std::alloc::Global;

// The most columns that a matrix has.
pub const COLUMNS: usize = 201;

// What rising gives give one agent.
fn gives_to(gives: &[Give], agent: u32) -> &[Give]
    requires { AreRising gives.now }
    ensures { result.now ≡ filter (λ g. g.agent == agent) gives.now }
{
    let start = gives.partition_point(|give| give.agent < agent);
    let rest = &gives[start..];
    let end = rest.partition_point(|give| give.agent <= agent);
    &rest[..end]
}

// Adds weight times count at the columns of these gives.
fn add_gives(gives: &[Give], weight: u128, row: &mut [u128])
    requires columns { All (λ g. g.object < length row.old) gives.now }
    requires room { (a : ℕ) → a < length row.old
        → slice_index row.old a + weight * given_in gives.now a < 2 ^ 128 }
    ensures { (a : ℕ) → a < length row.old
        → slice_index row.new a ≡ slice_index row.old a + weight * given_in gives.now a }
{
    for i in 0..gives.len() {
        let column = gives[i].object as usize;
        let units = weight * u128::from(gives[i].count);
        row[column] += units;
    }
}

// Adds up the weighted counts of an agent, by column.
fn totals_of_row(pieces: &Pieces, x: &Scaled, agent: u32, row: &mut [u128])
    requires given { ArePiecesOf x.now (pieces_value pieces.now) }
    requires row { row.old ≡ replicate 201 0 }
    ensures { AreTotals (pieces_value pieces.now) agent row.new }
{
    for piece in 0..pieces.list.len() {
        let gives = gives_to(counts::gives_of(pieces, piece), agent);
        add_gives(gives, counts::weight_of(pieces, piece), row);
    }
}

// Check 17 at a cell.
fn met_at(x: &Scaled, pieces: &Pieces, agent: u32, row: &[u128], object: u32) -> Option<Fault>
    requires small { IsSmallMatrix x.now }
    requires totals { AreTotals (pieces_value pieces.now) agent row.now }
    requires agent { agent < x.now.agents }
    requires object { object < x.now.columns }
    ensures { result ≡ met_look x.now (pieces_value pieces.now) agent object }
{
    let due = x.at(Cell { agent, object });
    let given = row[object as usize];
    if given == due {
        None
    } else {
        Some(Fault::CellNotMet {
            agent: agent + 1,
            column: object + 1,
            given,
            due,
        })
    }
}

// Check 17 in a row.
pub fn met_in(x: &Scaled, pieces: &Pieces, agent: u32, row: &[u128]) -> Option<Fault>
    requires small { IsSmallMatrix x.now }
    requires totals { AreTotals (pieces_value pieces.now) agent row.now }
    requires agent { agent < x.now.agents }
    ensures { result
        ≡ first_in (met_look x.now (pieces_value pieces.now) agent) 0 x.now.columns }
{
    for object in 0..x.columns() {
        if let Some(fault) = met_at(x, pieces, agent, row, object) {
            return Some(fault);
        }
    }
    None
}

// Check 17 for an agent.
fn met_of(x: &Scaled, pieces: &Pieces, agent: u32) -> Option<Fault>
    requires given { ArePiecesOf x.now (pieces_value pieces.now) }
    requires agent { agent < x.now.agents }
    ensures { result
        ≡ first_in (met_look x.now (pieces_value pieces.now) agent) 0 x.now.columns }
{
    let mut row = [0; COLUMNS];
    totals_of_row(pieces, x, agent, &mut row);
    met_in(x, pieces, agent, &row)
}

// Check 17, piece by piece for each agent.
fn met_by_rows(x: &Scaled, pieces: &Pieces) -> Option<Fault>
    requires given { ArePiecesOf x.now (pieces_value pieces.now) }
    ensures { result ≡ met_fault x.now (pieces_value pieces.now) }
{
    for agent in 0..x.agents() {
        if let Some(fault) = met_of(x, pieces, agent) {
            return Some(fault);
        }
    }
    None
}

// Check 17, with memory where there is some.
pub fn met(memory: Option<Global>, x: &Scaled, pieces: &Pieces) -> Option<Fault>
    requires given { ArePiecesOf x.now (pieces_value pieces.now) }
    ensures { result ≡ met_fault x.now (pieces_value pieces.now) }
{
    if let Some(alloc) = memory {
        if let Ok(fault) = met_in_memory(alloc, x, pieces) {
            return fault;
        }
    }
    met_by_rows(x, pieces)
}
