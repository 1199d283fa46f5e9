// Moving slots in a heap. The heap has a slot at each place, and `spots` has the place of each slot.
// The two places below place k are 2 k + 1 and 2 k + 2.

ghost use Rattle.std.specs.Prelude.{◌≡◌, ℕ, ◌+◌, ◌*◌, ◌<◌, ◌≤◌, ◌^◌, MatchBool, length, slice_index, slice_set};
ghost use Rattle.key_queue.specs.Queues.{above, key_at, InOrder, IsBelow, IsLooseAt, IsPlaced};

use crate::key::Key;

/// Exchanges the slots at two places.
fn exchange(heap: &mut [u32], spots: &mut [u32], a: usize, b: usize)
    requires placed { IsPlaced (length heap.old) heap.old spots.old }
    requires few { length heap.old < 2 ^ 32 }
    requires a { a < length heap.old }
    requires b { b < length heap.old }
    ensures placed { IsPlaced (length heap.old) heap.new spots.new }
    ensures heap { heap.new ≡ slice_set (slice_set heap.old a (slice_index heap.old b)) b (slice_index heap.old a) }
{
    let first = heap[a];
    let second = heap[b];
    heap[a] = second;
    heap[b] = first;
    spots[second as usize] = a as u32;
    spots[first as usize] = b as u32;
}

/// Whether the slot at a place may come before the slot at another.
fn comes_first<K: Key>(keys: &[K], heap: &[u32], a: usize, b: usize) -> bool
    requires placed { (k : ℕ) → k < length heap.now → slice_index heap.now k < length keys.now }
    requires a { a < length heap.now }
    requires b { b < length heap.now }
    ensures { (d : K) → MatchBool result
        (K.not_after (key_at keys.now heap.now d a) (key_at keys.now heap.now d b))
        (K.not_after (key_at keys.now heap.now d b) (key_at keys.now heap.now d a)) }
{
    keys[heap[a] as usize].precedes(&keys[heap[b] as usize])
}

/// Moves the slot at a place up while it may come before the one above it, and answers where it stands then.
fn rise<K: Key>(keys: &[K], heap: &mut [u32], spots: &mut [u32], start: usize) -> usize
    requires placed { IsPlaced (length keys.now) heap.old spots.old }
    requires few { length keys.now < 2 ^ 32 }
    requires start { start < length keys.now }
    requires loose { (d : K) → IsLooseAt K.not_after (length keys.now) start (key_at keys.now heap.old d) }
    ensures placed { IsPlaced (length keys.now) heap.new spots.new }
    ensures place { result < length keys.now }
    ensures loose { (d : K) → IsLooseAt K.not_after (length keys.now) result (key_at keys.now heap.new d) }
    ensures below { (d : K) → IsBelow K.not_after result (key_at keys.now heap.new d) }
{
    let mut at = start;
    while at > 0 {
        let up = (at - 1) / 2;
        if !comes_first(keys, heap, at, up) {
            return at;
        }
        exchange(heap, spots, at, up);
        at = up;
    }
    at
}

/// Of the two places below a place, of which the first is `left`, one that may come first.
fn first_below<K: Key>(keys: &[K], heap: &[u32], left: usize) -> usize
    requires placed { (k : ℕ) → k < length heap.now → slice_index heap.now k < length keys.now }
    requires left { left < length heap.now }
    requires few { length heap.now < 2 ^ 32 }
    ensures place { result < length heap.now }
    ensures near { (left ≤ result) × (result ≤ left + 1) }
    ensures first { (d : K) (c : ℕ) → left ≤ c → c ≤ left + 1 → c < length heap.now
        → K.not_after (key_at keys.now heap.now d result) (key_at keys.now heap.now d c) }
{
    let right = left + 1;
    if right < heap.len() && comes_first(keys, heap, right, left) {
        return right;
    }
    left
}

/// Moves the slot at a place down until it may come before those below it.
fn sink<K: Key>(keys: &[K], heap: &mut [u32], spots: &mut [u32], start: usize)
    requires placed { IsPlaced (length keys.now) heap.old spots.old }
    requires few { length keys.now < 2 ^ 32 }
    requires start { start < length keys.now }
    requires loose { (d : K) → IsLooseAt K.not_after (length keys.now) start (key_at keys.now heap.old d) }
    requires below { (d : K) → IsBelow K.not_after start (key_at keys.now heap.old d) }
    ensures placed { IsPlaced (length keys.now) heap.new spots.new }
    ensures order { (d : K) → InOrder K.not_after (length keys.now) (key_at keys.now heap.new d) }
{
    let mut at = start;
    while 2 * at + 1 < heap.len() {
        let down = first_below(keys, heap, 2 * at + 1);
        if comes_first(keys, heap, at, down) {
            return;
        }
        exchange(heap, spots, at, down);
        at = down;
    }
}

/// Moves the slot at a place, whose key may be any, to where it belongs.
pub fn settle<K: Key>(keys: &[K], heap: &mut [u32], spots: &mut [u32], place: usize)
    requires placed { IsPlaced (length keys.now) heap.old spots.old }
    requires few { length keys.now < 2 ^ 32 }
    requires place { place < length keys.now }
    requires loose { (d : K) → IsLooseAt K.not_after (length keys.now) place (key_at keys.now heap.old d) }
    ensures placed { IsPlaced (length keys.now) heap.new spots.new }
    ensures order { (d : K) → InOrder K.not_after (length keys.now) (key_at keys.now heap.new d) }
{
    let risen = rise(keys, heap, spots, place);
    sink(keys, heap, spots, risen);
}
