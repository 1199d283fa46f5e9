// What a piece gives over each set, from its gives and the sets that hold their cells.

ghost use Rattle.std.specs.Prelude.{◌≡◌, ℕ, ◌<◌, ◌≤◌, ◌+◌, ◌^◌, All, length, slice_index, true, IfOk, IsTrue};
ghost use Rattle.cert_check.specs.HolderTables.{AreBounds, bounds_at, counted_at, give_place, held_sum, is_bounded, lists_of};
ghost use Rattle.cert_check.specs.PieceFaults.{IsFamilyMatrix};

use crate::holders::place_of;
use quota_sets::{Family, Give, NoMemory, Scaled};
use std::alloc::Global;

/// A sum over the denominator, rounded down and up.
#[derive(Debug, Drop)]
pub struct Bounds {
    low: u128,
    high: u128,
}

/// For each set what a piece may give over it.
///
/// # Errors
/// `NoMemory` where there is no memory for them.
pub fn bounds_of(alloc: Global, family: &Family, x: &Scaled) -> Result<Vec<Bounds>, NoMemory>
    requires given { IsFamilyMatrix family.now x.now }
    ensures { IfOk result (λ list. AreBounds family.now x.now list.items) }
{
    let mut list = Vec::new(alloc);
    let d = x.denominator();
    for index in 0..family.len() {
        let units = family.sum(index + 1, x);
        let low = units / d;
        let high = (units + d - 1) / d;
        list.push(Bounds { low, high })?;
    }
    Ok(list)
}

// Adds a count at each of these indices.
fn add_count(indices: &[u32], count: u64, sums: &mut [u64])
    requires known { All (λ n. n < length sums.old) indices.now }
    requires room { (s : ℕ) → s < length sums.old
        → slice_index sums.old s + counted_at count indices.now s < 2 ^ 64 }
    ensures { (s : ℕ) → s < length sums.old
        → slice_index sums.new s ≡ slice_index sums.old s + counted_at count indices.now s }
{
    for i in 0..indices.len() {
        let index = indices[i] as usize;
        sums[index] += count;
    }
}

/// Adds what gives give over each set.
pub fn add_gives(lists: &[Vec<u32>], gives: &[Give], sums: &mut [u64])
    requires places { All (λ g. give_place g < length lists.now) gives.now }
    requires known { All (All (λ s. s < length sums.old)) (lists_of lists.now) }
    requires room { (s : ℕ) → s < length sums.old
        → slice_index sums.old s + held_sum (lists_of lists.now) gives.now s < 2 ^ 64 }
    ensures { (s : ℕ) → s < length sums.old → slice_index sums.new s
        ≡ slice_index sums.old s + held_sum (lists_of lists.now) gives.now s }
{
    for i in 0..gives.len() {
        let place = place_of(gives[i].agent, gives[i].object);
        add_count(&lists[place], u64::from(gives[i].count), sums);
    }
}

/// Whether each sum is one of its bounds.
pub fn are_bounded(bounds: &[Bounds], sums: &[u64]) -> bool
    requires { length sums.now ≤ length bounds.now }
    ensures { IsTrue result → (s : ℕ) → s < length sums.now
        → is_bounded (bounds_at bounds.now s) (slice_index sums.now s) ≡ true }
{
    for i in 0..sums.len() {
        let sum = u128::from(sums[i]);
        if sum != bounds[i].low && sum != bounds[i].high {
            return false;
        }
    }
    true
}
