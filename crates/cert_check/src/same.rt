//! Check 16: no two pieces give the same.
//!
//! The plain way looks at each pair of pieces, most of which differ at once: its time is that of the square of their
//! number. With memory the pieces that no later one equals are found by a sort, and only another one is compared with
//! those after it.

ghost use Rattle.std.specs.Prelude.{◌≡◌, ◌<◌, ◌+◌, ◌-◌, length, IfOk};
ghost use Rattle.definitions.specs.Firsts.{first_in};
ghost use Rattle.cert_check.specs.GiveOrder.{AreUnlike};
ghost use Rattle.cert_check.specs.PieceFaults.{pieces_value, same_fault, same_look};

use crate::faults::Fault;
use crate::{counts, distinct};
use quota_sets::{NoMemory, Pieces};
use std::alloc::Global;

// Check 16 at two pieces: they give different things.
fn same_at(pieces: &Pieces, first: usize, second: usize) -> Option<Fault>
    requires first { first < length (pieces_value pieces.now) }
    requires second { second < length (pieces_value pieces.now) }
    ensures { result ≡ same_look (pieces_value pieces.now) first second }
{
    if counts::gives_of(pieces, first) == counts::gives_of(pieces, second) {
        Some(Fault::SamePieces {
            first: first as u64 + 1,
            second: second as u64 + 1,
        })
    } else {
        None
    }
}

// Check 16 at a piece and those after it.
fn same_in(pieces: &Pieces, first: usize) -> Option<Fault>
    requires { first < length (pieces_value pieces.now) }
    ensures { result ≡ first_in (same_look (pieces_value pieces.now) first)
        (first + 1) (length (pieces_value pieces.now) - (first + 1)) }
{
    for second in first + 1..pieces.list.len() {
        if let Some(fault) = same_at(pieces, first, second) {
            return Some(fault);
        }
    }
    None
}

// Check 16, pair by pair.
fn same_pairs(pieces: &Pieces) -> Option<Fault>
    ensures { result ≡ same_fault (pieces_value pieces.now) }
{
    for first in 0..pieces.list.len() {
        if let Some(fault) = same_in(pieces, first) {
            return Some(fault);
        }
    }
    None
}

// Check 16 at a piece and those after it, where `unlike` marks pieces that no later one equals.
fn same_from(pieces: &Pieces, first: usize, unlike: &[bool]) -> Option<Fault>
    requires first { first < length (pieces_value pieces.now) }
    requires unlike { AreUnlike (pieces_value pieces.now) unlike.now }
    ensures { result ≡ first_in (same_look (pieces_value pieces.now) first)
        (first + 1) (length (pieces_value pieces.now) - (first + 1)) }
{
    if unlike[first] {
        None
    } else {
        same_in(pieces, first)
    }
}

// Check 16 with these marks.
fn same_by(pieces: &Pieces, unlike: &[bool]) -> Option<Fault>
    requires { AreUnlike (pieces_value pieces.now) unlike.now }
    ensures { result ≡ same_fault (pieces_value pieces.now) }
{
    for first in 0..pieces.list.len() {
        if let Some(fault) = same_from(pieces, first, unlike) {
            return Some(fault);
        }
    }
    None
}

// Check 16 with memory for a sort.
fn same_in_memory(alloc: Global, pieces: &Pieces) -> Result<Option<Fault>, NoMemory>
    ensures { IfOk result (λ fault. fault ≡ same_fault (pieces_value pieces.now)) }
{
    let unlike = distinct::unlike_later(alloc, pieces)?;
    Ok(same_by(pieces, &unlike))
}

// Check 16, with memory where there is some.
pub fn same(memory: Option<Global>, pieces: &Pieces) -> Option<Fault>
    ensures { result ≡ same_fault (pieces_value pieces.now) }
{
    if let Some(alloc) = memory {
        if let Ok(fault) = same_in_memory(alloc, pieces) {
            return fault;
        }
    }
    same_pairs(pieces)
}
