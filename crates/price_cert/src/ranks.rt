//! Ranks and prices of the stated sets.

ghost use Rattle.std.specs.Prelude.{◌≡◌, ℕ, ◌<◌, ◌≤◌, IfOk, IfSome, Some, length, map, All};
ghost use Rattle.std.specs.List.{range_with_len};
ghost use Rattle.price_cert.specs.Ranks.{AreRanksFound, IsClimbable, price_in, rank_at, rank_in};

use bihierarchy::Trees;
use std::alloc::{AllocError, Global};

/// The least of `top` and the numbers of a set, its parent, and so on up. Ranks that are found on the way are kept, so
/// that each set is passed once in all; as many sets as stand above each other are passed in one call.
fn rank_of(
    trees: &Trees,
    numbers: &[u64],
    top: u64,
    found: &mut [Option<u64>],
    set: Option<u32>,
) -> u64
    requires climbable { IsClimbable trees.now (length numbers.now) }
    requires known { IfSome set (λ s. (0 < s) × (s ≤ length numbers.now)) }
    requires found { AreRanksFound numbers.now top trees.now found.old }
    ensures rank { result ≡ rank_in numbers.now top trees.now set }
    ensures found { AreRanksFound numbers.now top trees.now found.new }
{
    let Some(set) = set else {
        return top;
    };
    let index = set as usize - 1;
    if let Some(rank) = found[index] {
        return rank;
    }
    let above = rank_of(trees, numbers, top, found, trees.parent(set));
    let rank = above.min(numbers[index]);
    found[index] = Some(rank);
    rank
}

/// The rank of each set that has a number.
pub(crate) fn ranks_of(
    alloc: Global,
    trees: &Trees,
    numbers: &[u64],
    top: u64,
) -> Result<Vec<u64>, AllocError>
    requires climbable { IsClimbable trees.now (length numbers.now) }
    requires few { length numbers.now ≤ 1000 }
    ensures { IfOk result (λ v. v.items
        ≡ map (λ s. rank_in numbers.now top trees.now (Some s))
        (range_with_len 1 (length numbers.now))) }
{
    let mut found = vec![in alloc; None; numbers.len()]?;
    let mut ranks = Vec::new(alloc);
    for set in 0..numbers.len() {
        ranks.push(rank_of(trees, numbers, top, &mut found, Some(set as u32 + 1)))?;
    }
    Ok(ranks)
}

/// The rank of a set, and `top` where there is none.
pub(crate) fn rank(ranks: &[u64], top: u64, set: Option<u32>) -> u64
    requires { IfSome set (λ s. (0 < s) × (s ≤ length ranks.now)) }
    ensures { result ≡ rank_at ranks.now top set }
{
    match set {
        Some(set) => ranks[set as usize - 1],
        None => top,
    }
}

/// The price of each set that has a rank.
pub(crate) fn prices_of(
    alloc: Global,
    trees: &Trees,
    ranks: &[u64],
    top: u64,
    width: u64,
) -> Result<Vec<u64>, AllocError>
    requires climbable { IsClimbable trees.now (length ranks.now) }
    requires few { length ranks.now ≤ 1000 }
    requires within { All (λ rank. rank ≤ top) ranks.now }
    requires top { top ≤ 203000 }
    requires width { width ≤ 202 }
    ensures { IfOk result (λ v. v.items
        ≡ map (price_in width ranks.now top trees.now)
        (range_with_len 1 (length ranks.now))) }
{
    let mut prices = Vec::new(alloc);
    for set in 0..ranks.len() {
        let above = rank(ranks, top, trees.parent(set as u32 + 1));
        let own = ranks[set];
        prices.push(width * above.saturating_sub(own))?;
    }
    Ok(prices)
}
