//! Check 17 with memory for a number for each cell: the time is that of the gives, and not of the agents for each
//! piece.

ghost use Rattle.std.specs.Prelude.{◌≡◌, ℕ, ◌<◌, ◌+◌, ◌^◌, All, length, slice_index, IfOk};
ghost use Rattle.cert_check.specs.HolderTables.{give_place};
ghost use Rattle.cert_check.specs.PieceFaults.{ArePiecesOf, met_fault, pieces_value};
ghost use Rattle.cert_check.specs.TotalTables.{AreAllTotals, place_at, weighted_at};

use crate::counts;
use crate::faults::Fault;
use crate::holders::place_of;
use crate::totals::{COLUMNS, met_in};
use quota_sets::{Give, NoMemory, Pieces, Scaled};
use std::alloc::Global;

// Adds weight times count at the place of each of these gives.
fn add_gives(gives: &[Give], weight: u128, table: &mut [u128])
    requires places { All (λ g. (g.object < 201) × (give_place g < length table.old)) gives.now }
    requires room { (i a : ℕ) → a < 201 → place_at i a < length table.old
        → slice_index table.old (place_at i a) + weighted_at weight gives.now (place_at i a) < 2 ^ 128 }
    ensures { (i a : ℕ) → a < 201 → place_at i a < length table.old
        → slice_index table.new (place_at i a)
        ≡ slice_index table.old (place_at i a) + weighted_at weight gives.now (place_at i a) }
{
    for i in 0..gives.len() {
        let place = place_of(gives[i].agent, gives[i].object);
        let units = weight * u128::from(gives[i].count);
        table[place] += units;
    }
}

// The weighted sum of the pieces at each cell, in rows of 201 places.
fn all_totals(alloc: Global, x: &Scaled, pieces: &Pieces) -> Result<Vec<u128>, NoMemory>
    requires given { ArePiecesOf x.now (pieces_value pieces.now) }
    ensures { IfOk result (λ table.
        AreAllTotals x.now.agents (pieces_value pieces.now) table.items) }
{
    let mut table = vec![in alloc; 0; x.agents() as usize * COLUMNS]?;
    for piece in 0..pieces.list.len() {
        let weight = counts::weight_of(pieces, piece);
        add_gives(counts::gives_of(pieces, piece), weight, &mut table);
    }
    Ok(table)
}

// Check 17 with these sums.
fn met_by(x: &Scaled, pieces: &Pieces, table: &[u128]) -> Option<Fault>
    requires given { ArePiecesOf x.now (pieces_value pieces.now) }
    requires totals { AreAllTotals x.now.agents (pieces_value pieces.now) table.now }
    ensures { result ≡ met_fault x.now (pieces_value pieces.now) }
{
    for agent in 0..x.agents() {
        let start = agent as usize * COLUMNS;
        let row = &table[start..start + COLUMNS];
        if let Some(fault) = met_in(x, pieces, agent, row) {
            return Some(fault);
        }
    }
    None
}

/// Check 17.
///
/// # Errors
/// `NoMemory` where there is no memory for the sums.
pub fn met_in_memory(alloc: Global, x: &Scaled, pieces: &Pieces) -> Result<Option<Fault>, NoMemory>
    requires given { ArePiecesOf x.now (pieces_value pieces.now) }
    ensures { IfOk result (λ fault. fault ≡ met_fault x.now (pieces_value pieces.now)) }
{
    let table = all_totals(alloc, x, pieces)?;
    Ok(met_by(x, pieces, &table))
}
