//! Sets of numbers as bit planes: slices of words of 64 bits, in which bit k of the plane is bit k
//! % 64 of the word k / 64. The tests and the count take eight words at a time, and go word by word
//! over the rest. No call takes memory.
//!
//! ```text
//! let mut first = [0; 9];
//! let mut second = [0; 9];
//! set_bit(&mut first, 575);
//! set_bit(&mut second, 575);
//! assert!(rt; within(&first, &second));
//! set_bit(&mut first, 3);
//! assert!(rt; meets(&first, &second));
//! assert!(rt; !within(&first, &second));
//! assert_eq!(rt; count(&first), 2);
//! ```
#![tactic(auto)]

ghost use Rattle.std.specs.Prelude.{◌≡◌, ◌≢◌, ℕ, ◌+◌, ◌*◌, ◌^◌, ◌<◌, ◌≤◌, ◌↔◌, length, drop, IsTrue};
ghost use lib.Lanes.{chunk};
ghost use Rattle.plane_kernel.specs.Bits.{bit_of, Overlap, IsWithin, ones_in};
ghost use Rattle.plane_kernel.specs.Words.{words_meet, words_within};

use std::simd::prelude::*;

/// How many words are taken at a time.
const LANES: usize = 8;

/// Whether some bit is set in both of two planes of one length.
pub fn meets(a: &[u64], b: &[u64]) -> bool
    requires { length a.now ≡ length b.now }
    ensures { IsTrue result ↔ Overlap a.now b.now }
{
    meets_words(a, b)
}

/// Whether each bit of a is set in b, for two planes of one length.
pub fn within(a: &[u64], b: &[u64]) -> bool
    requires { length a.now ≡ length b.now }
    ensures { IsTrue result ↔ IsWithin a.now b.now }
{
    within_words(a, b)
}

/// How many bits are set.
pub fn count(a: &[u64]) -> u64
    requires { length a.now < 2 ^ 58 }
    ensures { result ≡ ones_in a.now }
{
    let mut ones = 0;
    let mut at = 0;
    while a.len() - at >= LANES {
        ones += count_lanes(a, at);
        at += LANES;
    }
    ones + count_rest(a, at)
}

/// Sets one bit of a plane, and leaves the others.
pub fn set_bit(a: &mut [u64], bit: u32)
    requires { bit < 64 * length a.old }
    ensures set { bit_of a.new bit ≡ 1 }
    ensures kept { (k : ℕ) → k ≢ bit → bit_of a.new k ≡ bit_of a.old k }
{
    let word = bit as usize / 64;
    a[word] |= 1 << (bit % 64);
}

fn meets_words(a: &[u64], b: &[u64]) -> bool
    requires { length a.now ≡ length b.now }
    ensures { result ≡ words_meet a.now b.now }
{
    let mut at = 0;
    while a.len() - at >= LANES {
        if meets_lanes(a, b, at) {
            return true;
        }
        at += LANES;
    }
    meets_rest(a, b, at)
}

/// The words from `at` on, one for each lane.
fn meets_lanes(a: &[u64], b: &[u64], at: usize) -> bool
    requires in_a { at + LANES ≤ length a.now }
    requires in_b { at + LANES ≤ length b.now }
    ensures { result ≡ words_meet (chunk at LANES a.now) (chunk at LANES b.now) }
{
    let x = u64x8::from_slice(&a[at..]);
    let y = u64x8::from_slice(&b[at..]);
    (x & y).reduce_or() != 0
}

/// All words from `from` on.
fn meets_rest(a: &[u64], b: &[u64], from: usize) -> bool
    requires same { length a.now ≡ length b.now }
    requires inside { from ≤ length a.now }
    ensures { result ≡ words_meet (drop from a.now) (drop from b.now) }
{
    for i in from..a.len() {
        if a[i] & b[i] != 0 {
            return true;
        }
    }
    false
}

fn within_words(a: &[u64], b: &[u64]) -> bool
    requires { length a.now ≡ length b.now }
    ensures { result ≡ words_within a.now b.now }
{
    let mut at = 0;
    while a.len() - at >= LANES {
        if !within_lanes(a, b, at) {
            return false;
        }
        at += LANES;
    }
    within_rest(a, b, at)
}

/// The words from `at` on, one for each lane.
fn within_lanes(a: &[u64], b: &[u64], at: usize) -> bool
    requires in_a { at + LANES ≤ length a.now }
    requires in_b { at + LANES ≤ length b.now }
    ensures { result ≡ words_within (chunk at LANES a.now) (chunk at LANES b.now) }
{
    let x = u64x8::from_slice(&a[at..]);
    let y = u64x8::from_slice(&b[at..]);
    ((x & y) ^ x).reduce_or() == 0
}

/// All words from `from` on.
fn within_rest(a: &[u64], b: &[u64], from: usize) -> bool
    requires same { length a.now ≡ length b.now }
    requires inside { from ≤ length a.now }
    ensures { result ≡ words_within (drop from a.now) (drop from b.now) }
{
    for i in from..a.len() {
        if a[i] & b[i] != a[i] {
            return false;
        }
    }
    true
}

/// The words from `at` on, one for each lane.
fn count_lanes(a: &[u64], at: usize) -> u64
    requires { at + LANES ≤ length a.now }
    ensures { result ≡ ones_in (chunk at LANES a.now) }
{
    let x = u64x8::from_slice(&a[at..]);
    x.count_ones().strict_reduce_sum()
}

/// All words from `from` on.
fn count_rest(a: &[u64], from: usize) -> u64
    requires { length a.now < 2 ^ 58 }
    ensures { result ≡ ones_in (drop from a.now) }
{
    let mut ones = 0;
    for i in from..a.len() {
        ones += a[i].count_ones() as u64;
    }
    ones
}

#[cfg(test)]
mod tests;
