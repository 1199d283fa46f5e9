//! Queues: a key for each slot, and a slot whose key no other comes before.

ghost use Rattle.std.specs.Prelude.{◌≡◌, ℕ, ◌<◌, ◌^◌, length, replicate, slice_index_or, slice_set, IfOk};
ghost use Rattle.key_queue.specs.Queues.{CountsTo};

use crate::key::Key;
use crate::moving::settle;
use std::alloc::{AllocError, Global};
use std::marker::Model;

/// A key for each slot, with a slot whose key no other comes before at hand. A contract sees the list of keys.
#[derive(Debug, Drop)]
pub struct Queue<K: Key> {
    keys: Vec<K>,
    // The slots, those that come first before those below them.
    heap: Vec<u32>,
    // The place of each slot in `heap`.
    spots: Vec<u32>,
}

impl<K: Key> Model for Queue<K> {
    ghost use Rattle.std.specs.Prelude.{List};
    ghost use Rattle.key_queue.specs.Queues.{IsQueue};

    ghost Value = { List K };

    ghost view = { λ q. q.keys.items };

    ghost invariant = { λ q. IsQueue K.not_after q.keys.items q.heap.items q.spots.items };
}

/// The numbers below a number, in order.
fn numbers_below(alloc: Global, count: u32) -> Result<Vec<u32>, AllocError>
    ensures { IfOk result (λ v. CountsTo count v.items) }
{
    let mut numbers = Vec::new(alloc);
    for number in 0..count {
        numbers.push(number)?;
    }
    Ok(numbers)
}

/// So many copies of a key.
fn copies<K: Key>(alloc: Global, count: u32, key: K) -> Result<Vec<K>, AllocError>
    ensures { IfOk result (λ v. v.items ≡ replicate count key) }
{
    let mut keys = Vec::new(alloc);
    for _copied in 0..count {
        keys.push(key)?;
    }
    Ok(keys)
}

impl<K: Key> Queue<K> {
    /// A queue of so many slots, each with this key. It takes all memory that it ever needs.
    pub fn of(alloc: Global, count: u32, key: K) -> Result<Queue<K>, AllocError>
        ensures { IfOk result (λ q. q ≡ replicate count key) }
    {
        let keys = copies(alloc, count, key)?;
        let heap = numbers_below(alloc, count)?;
        let spots = numbers_below(alloc, count)?;
        Ok(Queue { keys, heap, spots })
    }

    /// How many slots there are.
    pub fn len(&self) -> usize
        ensures { result ≡ length self.now }
    {
        self.keys.len()
    }

    /// The key of a slot.
    pub fn key(&self, slot: u32) -> K
        requires { slot < length self.now }
        ensures { (d : K) → result ≡ slice_index_or self.now slot d }
    {
        self.keys[slot as usize]
    }

    /// A slot whose key no other comes before.
    pub fn top(&self) -> u32
        requires { 0 < length self.now }
        ensures known { result < length self.now }
        ensures first { (d : K) (j : ℕ) → j < length self.now
            → K.not_after (slice_index_or self.now result d) (slice_index_or self.now j d) }
    {
        self.heap[0]
    }

    /// Gives a slot another key. The others keep theirs.
    pub fn set_key(&mut self, slot: u32, key: K)
        requires { slot < length self.old }
        ensures { self.new ≡ slice_set self.old slot key }
    {
        self.keys[slot as usize] = key;
        let place = self.spots[slot as usize] as usize;
        settle(&self.keys, &mut self.heap, &mut self.spots, place);
    }
}
