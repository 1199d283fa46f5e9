//! Checks 13 to 17: weighted whole matrices decompose an expected one.

ghost use Rattle.std.specs.Prelude.{◌≡◌, ◌↔◌};
ghost use Rattle.definitions.specs.Sets.{IsFamily, IsScaledMatrix};
ghost use Rattle.cert_check.specs.Verdicts.{verdict_of};
ghost use Rattle.cert_check.specs.PieceFaults.{AreDecomposition, ArePiecesFor, AreUnitsNamed, IsFamilyMatrix, IsMatrixFor, first_piece_fault, many_fault, pieces_value};

use crate::faults::Fault;
use crate::verdicts::Verdict;
use crate::{cells, counts, same, sets, totals};
use quota_sets::{Family, Pieces, Scaled};
use std::alloc::Global;

/// Whether pieces decompose a matrix for a family: each piece rounds the matrix at each cell and at each set, no two
/// pieces give the same, the weighted sum at each cell is that of the matrix, and there is at most one piece more than
/// there are cells and sets whose sum is no multiple of the denominator.
///
/// The shapes are one; weights are at least 1 and add up to the denominator; gives are in range, rise strictly by agent
/// and then column, and have counts from 1 to 1,000. It takes no memory.
pub fn check_pieces(family: &Family, x: &Scaled, pieces: &Pieces) -> Verdict
    requires matrix { IsMatrixFor family.now x.now }
    requires pieces { ArePiecesFor x.now (pieces_value pieces.now) }
    ensures exact { result
        ≡ verdict_of (first_piece_fault family.now x.now (pieces_value pieces.now)) }
    ensures pass { (result ≡ Verdict.Pass)
        ↔ AreDecomposition family.now x.now (pieces_value pieces.now) }
    ensures named { result ≡ Verdict.Pass → AreUnitsNamed x.now (pieces_value pieces.now) }
{
    Verdict::of(first_fault(None, family, x, pieces))
}

/// What `check_pieces` says, in the time of the gives, of the sets that hold their cells, and of sorting the pieces. It
/// takes memory for that, and a check for which memory is refused does without.
pub fn check_pieces_in(alloc: Global, family: &Family, x: &Scaled, pieces: &Pieces) -> Verdict
    requires matrix { IsMatrixFor family.now x.now }
    requires pieces { ArePiecesFor x.now (pieces_value pieces.now) }
    ensures exact { result
        ≡ verdict_of (first_piece_fault family.now x.now (pieces_value pieces.now)) }
    ensures pass { (result ≡ Verdict.Pass)
        ↔ AreDecomposition family.now x.now (pieces_value pieces.now) }
    ensures named { result ≡ Verdict.Pass → AreUnitsNamed x.now (pieces_value pieces.now) }
{
    Verdict::of(first_fault(Some(alloc), family, x, pieces))
}

// The first fault, if there is one.
fn first_fault(
    memory: Option<Global>,
    family: &Family,
    x: &Scaled,
    pieces: &Pieces,
) -> Option<Fault>
    requires matrix { IsMatrixFor family.now x.now }
    requires pieces { ArePiecesFor x.now (pieces_value pieces.now) }
    ensures value { result ≡ first_piece_fault family.now x.now (pieces_value pieces.now) }
    ensures family { IsFamily family.now }
    ensures lawful { IsScaledMatrix x.now }
{
    let _ = (family.len(), x.denominator());
    if let Some(fault) = too_many(family, x, pieces) {
        return Some(fault);
    }
    if let Some(fault) = cells::cells(x, pieces) {
        return Some(fault);
    }
    if let Some(fault) = sets::sets(memory, family, x, pieces) {
        return Some(fault);
    }
    if let Some(fault) = same::same(memory, pieces) {
        return Some(fault);
    }
    totals::met(memory, x, pieces)
}

// Check 13: there are at most as many pieces as sums that are no multiple of the denominator, and one.
fn too_many(family: &Family, x: &Scaled, pieces: &Pieces) -> Option<Fault>
    requires given { IsFamilyMatrix family.now x.now }
    ensures { result ≡ many_fault family.now x.now (pieces_value pieces.now) }
{
    let bound = counts::fractional(family, x) + 1;
    let count = pieces.list.len() as u64;
    if count > bound {
        Some(Fault::TooManyPieces {
            pieces: count,
            bound,
        })
    } else {
        None
    }
}
