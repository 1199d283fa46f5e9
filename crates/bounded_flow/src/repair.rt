// Pushing units round rings of edges until no gap reaches the weight left.

ghost use Rattle.std.specs.Prelude.{◌≡◌, ℕ, ◌+◌, ◌<◌, ◌≤◌, ◌^◌, ◌⊎◌, List, length, All, Any, IfOk, slice_index, slice_index_or};
ghost use Rattle.bounded_flow.specs.declared.edge.Edge.{Edge};
ghost use Rattle.bounded_flow.specs.Edges.{IsSound, Pushed, gap_of, enters, leaves};
ghost use Rattle.bounded_flow.specs.Flows.{IsFlow, IsRepair, IsWalk, Owes};
ghost use Rattle.bounded_flow.specs.Ranks.{IsRanked};
ghost use Rattle.bounded_flow.specs.Searches.{IsAdjacency, HasRoom, Reached};

use crate::edge::Edge;
use crate::search::{Adjacency, Search, find};
use key_queue::{Falling, Queue};
use std::alloc::{AllocError, Global};

/// Pushes each edge of the way that the search found from one node to the other, from its end on.
fn walk(
    edges: &mut [Edge],
    gaps: &mut Queue<Falling>,
    search: &Search,
    left: u128,
    from: u32,
    to: u32,
)
    requires room { left ≤ 2 ^ 116 }
    requires one { 1 ≤ left }
    requires sound { All (IsSound left) edges.old }
    requires reached { Reached edges.old (length search.now.place.items) search.now }
    requires first { (from < length search.now.place.items) × (slice_index search.now.place.items from ≡ 0) }
    requires found { (to < length search.now.place.items) × (slice_index search.now.place.items to < search.now.seen) }
    requires owes { Owes (λ e. e.whole) edges.old (length search.now.place.items) to to 1 }
    requires ranked { IsRanked edges.old gaps.old }
    ensures walk { IsWalk left (length search.now.place.items) to from edges.old edges.new }
    ensures ranked { IsRanked edges.new gaps.new }
{
    let mut node = to;
    while node != from {
        let edge = &mut edges[search.way[node as usize] as usize];
        let next = edge.leaves();
        edge.push(left);
        let gap = edge.gap();
        gaps.set_key(search.way[node as usize], Falling(gap));
        node = next;
    }
}

/// Pushes an edge, and the edges of a way from where that brings a unit to where it takes it from.
fn repair(
    edges: &mut [Edge],
    gaps: &mut Queue<Falling>,
    adjacency: &Adjacency,
    search: &mut Search,
    left: u128,
    index: u32,
)
    requires room { HasRoom (length search.old.place.items) search.old }
    requires adjacent { IsAdjacency (length search.old.place.items) adjacency.now edges.old }
    requires limit { left ≤ 2 ^ 116 }
    requires one { 1 ≤ left }
    requires flow { IsFlow left (length search.old.place.items) edges.old }
    requires known { index < length edges.old }
    requires off { (d : Edge) → left ≤ gap_of (slice_index_or edges.old index d) }
    requires ranked { IsRanked edges.old gaps.old }
    ensures ranked { IsRanked edges.new gaps.new }
    ensures room { HasRoom (length search.old.place.items) search.new }
    ensures flow { IsFlow left (length search.old.place.items) edges.new }
    ensures repair { IsRepair left edges.old edges.new }
    ensures falls { (d : Edge) → gap_of (slice_index_or edges.new index d) + left ≡ gap_of (slice_index_or edges.old index d) }
{
    let from = edges[index as usize].enters();
    let to = edges[index as usize].leaves();
    find(edges, adjacency, search, from, to);
    walk(edges, gaps, search, left, from, to);
    let edge = &mut edges[index as usize];
    edge.push(left);
    let gap = edge.gap();
    gaps.set_key(index, Falling(gap));
}

/// Repairs an edge until its gap is below the weight left.
fn mend(
    edges: &mut [Edge],
    gaps: &mut Queue<Falling>,
    adjacency: &Adjacency,
    search: &mut Search,
    left: u128,
    index: u32,
)
    requires room { HasRoom (length search.old.place.items) search.old }
    requires adjacent { IsAdjacency (length search.old.place.items) adjacency.now edges.old }
    requires limit { left ≤ 2 ^ 116 }
    requires one { 1 ≤ left }
    requires flow { IsFlow left (length search.old.place.items) edges.old }
    requires known { index < length edges.old }
    requires ranked { IsRanked edges.old gaps.old }
    ensures ranked { IsRanked edges.new gaps.new }
    ensures room { HasRoom (length search.old.place.items) search.new }
    ensures flow { IsFlow left (length search.old.place.items) edges.new }
    ensures repair { IsRepair left edges.old edges.new }
    ensures mended { (d : Edge) → gap_of (slice_index_or edges.new index d) < left }
{
    while edges[index as usize].gap() >= left {
        repair(edges, gaps, adjacency, search, left, index);
    }
}

/// Repairs every edge whose gap isn't below the weight left, the widest first.
pub fn settle(
    edges: &mut [Edge],
    gaps: &mut Queue<Falling>,
    adjacency: &Adjacency,
    search: &mut Search,
    left: u128,
)
    requires room { HasRoom (length search.old.place.items) search.old }
    requires adjacent { IsAdjacency (length search.old.place.items) adjacency.now edges.old }
    requires limit { left ≤ 2 ^ 116 }
    requires one { 1 ≤ left }
    requires flow { IsFlow left (length search.old.place.items) edges.old }
    requires ranked { IsRanked edges.old gaps.old }
    ensures ranked { IsRanked edges.new gaps.new }
    ensures room { HasRoom (length search.old.place.items) search.new }
    ensures flow { IsFlow left (length search.old.place.items) edges.new }
    ensures repair { IsRepair left edges.old edges.new }
    ensures settled { All (λ e. gap_of e < left) edges.new }
{
    while gaps.len() > 0 {
        let index = gaps.top();
        let widest = gaps.key(index);
        if widest.0 < left {
            return;
        }
        mend(edges, gaps, adjacency, search, left, index);
    }
}

/// The greatest of these gaps, and 0 where there is none.
pub fn greatest_gap(gaps: &Queue<Falling>) -> u128
    ensures most { All (λ g. g.0 ≤ result) gaps.now }
    ensures attained { (result ≡ 0) ⊎ Any (λ g. g.0 ≡ result) gaps.now }
{
    if gaps.len() == 0 {
        return 0;
    }
    gaps.key(gaps.top()).0
}

/// Gives each edge its gap as its key.
pub fn rank(edges: &[Edge], gaps: &mut Queue<Falling>)
    requires many { length gaps.old ≡ length edges.now }
    requires few { length edges.now ≤ 203000 }
    requires room { All (λ e. gap_of e < 2 ^ 128) edges.now }
    ensures { IsRanked edges.now gaps.new }
{
    for (index, edge) in edges.iter().enumerate() {
        gaps.set_key(index as u32, Falling(edge.gap()));
    }
}

/// A queue of the gaps of edges.
pub fn gaps_of(alloc: Global, edges: &[Edge]) -> Result<Queue<Falling>, AllocError>
    requires few { length edges.now ≤ 203000 }
    requires room { All (λ e. gap_of e < 2 ^ 128) edges.now }
    ensures { IfOk result (IsRanked edges.now) }
{
    let mut gaps = Queue::of(alloc, edges.len() as u32, Falling(0))?;
    rank(edges, &mut gaps);
    Ok(gaps)
}
