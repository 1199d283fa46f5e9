//! Check 15: what each piece gives over each set is the sum of the matrix over the denominator, rounded down or up.

ghost use Rattle.std.specs.Prelude.{◌≡◌, ◌<◌, ◌+◌, length, IfOk};
ghost use Rattle.definitions.specs.Firsts.{first_in};
ghost use Rattle.cert_check.specs.HolderTables.{AreBounds, AreHolders, lists_of};
ghost use Rattle.cert_check.specs.PieceFaults.{ArePiecesFor, IsFamilyMatrix, pieces_value, set_fault, set_look};

use crate::faults::Fault;
use crate::set_sums::Bounds;
use crate::{counts, holders, set_sums};
use quota_sets::{Family, NoMemory, Pieces, Scaled};
use std::alloc::Global;

// Check 15 at a piece and a set: the piece's sum is the matrix's over the denominator, rounded down or up.
fn set_at(family: &Family, x: &Scaled, pieces: &Pieces, piece: usize, index: u32) -> Option<Fault>
    requires given { IsFamilyMatrix family.now x.now }
    requires pieces { ArePiecesFor x.now (pieces_value pieces.now) }
    requires piece { piece < length (pieces_value pieces.now) }
    requires index { index < length family.now.sets }
    ensures { result ≡ set_look family.now x.now (pieces_value pieces.now) piece index }
{
    let units = family.sum(index + 1, x);
    let cells = family.get(index + 1).unwrap().cells();
    let sum = counts::set_count(counts::gives_of(pieces, piece), cells);
    if counts::rounds(units, x.denominator(), u128::from(sum)) {
        None
    } else {
        Some(Fault::SetNotRounded {
            piece: piece as u64 + 1,
            set: index + 1,
            sum,
        })
    }
}

// Check 15 at a piece.
fn sets_in(family: &Family, x: &Scaled, pieces: &Pieces, piece: usize) -> Option<Fault>
    requires given { IsFamilyMatrix family.now x.now }
    requires pieces { ArePiecesFor x.now (pieces_value pieces.now) }
    requires piece { piece < length (pieces_value pieces.now) }
    ensures { result ≡ first_in (set_look family.now x.now (pieces_value pieces.now) piece)
        0 (length family.now.sets) }
{
    for index in 0..family.len() {
        if let Some(fault) = set_at(family, x, pieces, piece, index) {
            return Some(fault);
        }
    }
    None
}

// Check 15, cell by cell.
fn sets_by_cells(family: &Family, x: &Scaled, pieces: &Pieces) -> Option<Fault>
    requires given { IsFamilyMatrix family.now x.now }
    requires pieces { ArePiecesFor x.now (pieces_value pieces.now) }
    ensures { result ≡ set_fault family.now x.now (pieces_value pieces.now) }
{
    for piece in 0..pieces.list.len() {
        if let Some(fault) = sets_in(family, x, pieces, piece) {
            return Some(fault);
        }
    }
    None
}

// Check 15 at a piece: its sums are read off its gives, and only a piece with a wrong sum is looked at set by set.
fn sets_at(
    family: &Family,
    x: &Scaled,
    pieces: &Pieces,
    piece: usize,
    lists: &[Vec<u32>],
    bounds: &[Bounds],
    sums: &mut [u64],
) -> Option<Fault>
    requires given { IsFamilyMatrix family.now x.now }
    requires pieces { ArePiecesFor x.now (pieces_value pieces.now) }
    requires piece { piece < length (pieces_value pieces.now) }
    requires holders { AreHolders family.now (lists_of lists.now) }
    requires bounds { AreBounds family.now x.now bounds.now }
    requires sums { length sums.old ≡ length family.now.sets }
    ensures { result ≡ first_in (set_look family.now x.now (pieces_value pieces.now) piece)
        0 (length family.now.sets) }
{
    sums.fill(0);
    set_sums::add_gives(lists, counts::gives_of(pieces, piece), sums);
    if set_sums::are_bounded(bounds, sums) {
        None
    } else {
        sets_in(family, x, pieces, piece)
    }
}

// Check 15 with these sets at each cell and these bounds of each set.
fn sets_by(
    family: &Family,
    x: &Scaled,
    pieces: &Pieces,
    lists: &[Vec<u32>],
    bounds: &[Bounds],
    sums: &mut [u64],
) -> Option<Fault>
    requires given { IsFamilyMatrix family.now x.now }
    requires pieces { ArePiecesFor x.now (pieces_value pieces.now) }
    requires holders { AreHolders family.now (lists_of lists.now) }
    requires bounds { AreBounds family.now x.now bounds.now }
    requires sums { length sums.old ≡ length family.now.sets }
    ensures { result ≡ set_fault family.now x.now (pieces_value pieces.now) }
{
    for piece in 0..pieces.list.len() {
        if let Some(fault) = sets_at(family, x, pieces, piece, lists, bounds, sums) {
            return Some(fault);
        }
    }
    None
}

// Check 15 with memory for the sets at each cell: the time of a piece is that of its gives, of the sets that hold their
// cells, and of the number of sets.
fn sets_in_memory(
    alloc: Global,
    family: &Family,
    x: &Scaled,
    pieces: &Pieces,
) -> Result<Option<Fault>, NoMemory>
    requires given { IsFamilyMatrix family.now x.now }
    requires pieces { ArePiecesFor x.now (pieces_value pieces.now) }
    ensures { IfOk result (λ fault. fault ≡ set_fault family.now x.now (pieces_value pieces.now)) }
{
    let lists = holders::holders(alloc, family)?;
    let bounds = set_sums::bounds_of(alloc, family, x)?;
    let mut sums = vec![in alloc; 0; family.len() as usize]?;
    Ok(sets_by(family, x, pieces, &lists, &bounds, &mut sums))
}

// Check 15, with memory where there is some.
pub fn sets(memory: Option<Global>, family: &Family, x: &Scaled, pieces: &Pieces) -> Option<Fault>
    requires given { IsFamilyMatrix family.now x.now }
    requires pieces { ArePiecesFor x.now (pieces_value pieces.now) }
    ensures { result ≡ set_fault family.now x.now (pieces_value pieces.now) }
{
    if let Some(alloc) = memory {
        if let Ok(fault) = sets_in_memory(alloc, family, x, pieces) {
            return fault;
        }
    }
    sets_by_cells(family, x, pieces)
}
