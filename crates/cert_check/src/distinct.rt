//! Which pieces give something else than each later piece, by a sort: with memory for a number and a mark for
//! each piece, and in the time of sorting.

ghost use Rattle.std.specs.Prelude.{◌≡◌, ℕ, ◌<◌, ◌+◌, length, slice_index, true, IfOk, IsTrue};
ghost use Rattle.cert_check.specs.PieceFaults.{gives_at, pieces_value};
ghost use Rattle.cert_check.specs.GiveOrder.{AreUnlike, IsOrder, IsUnlikeLater, comes_before, give_number, gives_before};

use quota_sets::{Give, NoMemory, Pieces};
use std::alloc::Global;
use std::cmp::Ordering;

/// For each piece whether it is known to give something else than each later one. `true` says so; `false` says
/// nothing.
///
/// # Errors
/// `NoMemory` where there is no memory for a number for each piece.
pub fn unlike_later(alloc: Global, pieces: &Pieces) -> Result<Vec<bool>, NoMemory>
    ensures { IfOk result (λ unlike. AreUnlike (pieces_value pieces.now) unlike.items) }
{
    let mut order = places(alloc, pieces.list.len())?;
    order.sort_unstable_by(|a, b| compare(pieces, *a, *b));
    let mut unlike = vec![in alloc; false; pieces.list.len()]?;
    if rises(pieces, &order) {
        mark(pieces, &order, &mut unlike);
    }
    Ok(unlike)
}

// The numbers from 0 to the last before a count.
fn places(alloc: Global, count: usize) -> Result<Vec<usize>, NoMemory>
    ensures many { IfOk result (λ list. length list.items ≡ count) }
    ensures each { IfOk result (λ list. (k : ℕ) → k < count → slice_index list.items k ≡ k) }
{
    let mut list = Vec::new(alloc);
    for place in 0..count {
        list.push(place)?;
    }
    Ok(list)
}

// What a piece gives, and nothing past the last piece.
fn gives_or_none(pieces: &Pieces, piece: usize) -> &[Give]
    ensures { result.now ≡ gives_at (pieces_value pieces.now) piece }
{
    match pieces.list.get(piece) {
        Some(piece) => &piece.gives,
        None => &[],
    }
}

// A give as one number, by agent, then column, then count.
fn number(give: &Give) -> u128
    ensures { result ≡ give_number give.now }
{
    let cell = u128::from(give.agent) * 4294967296 + u128::from(give.object);
    cell * 4294967296 + u128::from(give.count)
}

// Whether the first gives come before the others, as words come in a dictionary.
fn is_before(gives: &[Give], others: &[Give]) -> bool
    ensures { result ≡ gives_before gives.now others.now }
{
    for i in 0..gives.len() {
        if i >= others.len() {
            return false;
        }
        let own = number(&gives[i]);
        let other = number(&others[i]);
        if own != other {
            return own < other;
        }
    }
    gives.len() < others.len()
}

// Whether a piece comes before another: by what they give, and then by their places.
fn comes_before(pieces: &Pieces, piece: usize, other: usize) -> bool
    ensures { result ≡ comes_before (pieces_value pieces.now) piece other }
{
    let gives = gives_or_none(pieces, piece);
    let others = gives_or_none(pieces, other);
    is_before(gives, others) || gives == others && piece < other
}

// The order of two pieces. How it orders is free: `rises` looks at what it made.
fn compare(pieces: &Pieces, piece: usize, other: usize) -> Ordering {
    if comes_before(pieces, piece, other) {
        Ordering::Less
    } else if comes_before(pieces, other, piece) {
        Ordering::Greater
    } else {
        Ordering::Equal
    }
}

// Whether the pieces at each two neighbouring places of an order rise.
fn rises(pieces: &Pieces, order: &[usize]) -> bool
    ensures { IsTrue result → (k : ℕ) → k + 1 < length order.now
        → comes_before (pieces_value pieces.now) (slice_index order.now k)
        (slice_index order.now (k + 1)) ≡ true }
{
    for next in 1..order.len() {
        if !comes_before(pieces, order[next - 1], order[next]) {
            return false;
        }
    }
    true
}

// Whether the piece at a place of an order gives something else than the next. Then none that comes after it in the
// order gives the same, and those before it that do are earlier pieces.
fn differs_from_next(pieces: &Pieces, order: &[usize], place: usize) -> bool
    requires order { IsOrder (pieces_value pieces.now) order.now }
    requires place { place < length order.now }
    ensures { IsTrue result → IsUnlikeLater (pieces_value pieces.now) (slice_index order.now place) }
{
    place + 1 == order.len()
        || is_before(
            gives_or_none(pieces, order[place]),
            gives_or_none(pieces, order[place + 1]),
        )
}

// Marks the pieces that give something else than each later one.
fn mark(pieces: &Pieces, order: &[usize], unlike: &mut [bool])
    requires order { IsOrder (pieces_value pieces.now) order.now }
    requires unlike { AreUnlike (pieces_value pieces.now) unlike.old }
    ensures { AreUnlike (pieces_value pieces.now) unlike.new }
{
    for i in 0..order.len() {
        if differs_from_next(pieces, order, i) {
            unlike[order[i]] = true;
        }
    }
}
