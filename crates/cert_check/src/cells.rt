//! Check 14: what each piece gives at each cell is the units of the matrix over the denominator, rounded down or up.
//!
//! A cell of less than the denominator may have nothing. So a piece passes where each of its gives is rounded, and they are at as many
//! cells of at least the denominator as the matrix has. Only a piece that doesn't is looked at cell by cell: the time is that of the
//! gives, and of one piece cell by cell.

ghost use Rattle.std.specs.Prelude.{◌≡◌, ◌<◌, ◌+◌, length, IsTrue};
ghost use Rattle.definitions.specs.Firsts.{first_in};
ghost use Rattle.definitions.specs.Pieces.{AreGives};
ghost use Rattle.definitions.specs.Sets.{IsScaledMatrix};
ghost use Rattle.cert_check.specs.PieceFaults.{ArePiecesOf, AreRoundedCells, IsSmallMatrix, cell_fault, cell_fault_in, cell_look, gives_at, pieces_value, whole_count};

use crate::counts;
use crate::faults::Fault;
use quota_sets::{Cell, Give, Pieces, Scaled};

// Check 14 at a piece and a cell: the count is the units over the denominator, rounded down or up.
fn cell_at(x: &Scaled, pieces: &Pieces, piece: usize, agent: u32, object: u32) -> Option<Fault>
    requires given { ArePiecesOf x.now (pieces_value pieces.now) }
    requires piece { piece < length (pieces_value pieces.now) }
    requires agent { agent < x.now.agents }
    requires object { object < x.now.columns }
    ensures { result ≡ cell_look x.now (pieces_value pieces.now) piece agent object }
{
    let units = x.at(Cell { agent, object });
    let count = counts::count_of(counts::gives_of(pieces, piece), agent, object);
    if counts::rounds(units, x.denominator(), u128::from(count)) {
        None
    } else {
        Some(Fault::CellNotRounded {
            piece: piece as u64 + 1,
            agent: agent + 1,
            column: object + 1,
            count,
        })
    }
}

// Check 14 at a piece, in a row.
fn cells_in_row(x: &Scaled, pieces: &Pieces, piece: usize, agent: u32) -> Option<Fault>
    requires given { ArePiecesOf x.now (pieces_value pieces.now) }
    requires piece { piece < length (pieces_value pieces.now) }
    requires agent { agent < x.now.agents }
    ensures { result
        ≡ first_in (cell_look x.now (pieces_value pieces.now) piece agent) 0 x.now.columns }
{
    for object in 0..x.columns() {
        if let Some(fault) = cell_at(x, pieces, piece, agent, object) {
            return Some(fault);
        }
    }
    None
}

// Check 14 at a piece, row by row.
fn cells_by_rows(x: &Scaled, pieces: &Pieces, piece: usize) -> Option<Fault>
    requires given { ArePiecesOf x.now (pieces_value pieces.now) }
    requires piece { piece < length (pieces_value pieces.now) }
    ensures { result ≡ cell_fault_in x.now (pieces_value pieces.now) piece }
{
    for agent in 0..x.agents() {
        if let Some(fault) = cells_in_row(x, pieces, piece, agent) {
            return Some(fault);
        }
    }
    None
}

// Whether what these gives give at each cell is rounded, as the gives alone show. The last number is how many cells have at
// least the denominator.
fn are_gives_rounded(x: &Scaled, gives: &[Give], whole: u64) -> bool
    requires lawful { IsScaledMatrix x.now }
    requires gives { AreGives x.now.agents x.now.columns gives.now }
    requires whole { whole ≡ whole_count x.now }
    ensures { IsTrue result → AreRoundedCells x.now gives.now }
{
    let mut found = 0;
    for give in gives {
        let units = x.at(Cell {
            agent: give.agent,
            object: give.object,
        });
        if !counts::rounds(units, x.denominator(), u128::from(give.count)) {
            return false;
        }
        if units >= x.denominator() {
            found += 1;
        }
    }
    found == whole
}

// Check 14 at a piece.
fn cells_in(x: &Scaled, pieces: &Pieces, piece: usize, whole: u64) -> Option<Fault>
    requires given { ArePiecesOf x.now (pieces_value pieces.now) }
    requires piece { piece < length (pieces_value pieces.now) }
    requires whole { whole ≡ whole_count x.now }
    ensures { result ≡ cell_fault_in x.now (pieces_value pieces.now) piece }
{
    if are_gives_rounded(x, counts::gives_of(pieces, piece), whole) {
        None
    } else {
        cells_by_rows(x, pieces, piece)
    }
}

// Check 14.
pub fn cells(x: &Scaled, pieces: &Pieces) -> Option<Fault>
    requires given { ArePiecesOf x.now (pieces_value pieces.now) }
    ensures { result ≡ cell_fault x.now (pieces_value pieces.now) }
{
    let whole = counts::whole_cells(x);
    for piece in 0..pieces.list.len() {
        if let Some(fault) = cells_in(x, pieces, piece, whole) {
            return Some(fault);
        }
    }
    None
}
