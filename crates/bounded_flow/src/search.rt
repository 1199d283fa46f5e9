// The search for a way along edges that may be pushed.

ghost use Rattle.std.specs.Prelude.{◌≡◌, ℕ, ◌+◌, ◌<◌, ◌≤◌, ◌^◌, ◌⊎◌, ◌↔◌, List, length, All, IfOk, IsTrue, slice_index, slice_set};
ghost use Rattle.bounded_flow.specs.declared.edge.Edge.{Edge};
ghost use Rattle.bounded_flow.specs.Flows.{IsInside};
ghost use Rattle.bounded_flow.specs.Searches.{IsAdjacency, HasRoom, Marked, Reached, IsLater, IsFollowed, IsExplored};

use crate::edge::Edge;
use std::alloc::{AllocError, Global};

/// One end of an edge: the node and the number of the edge.
#[derive(Clone, Copy, Debug, PartialEq, Eq, PartialOrd, Ord)]
pub struct End {
    pub node: u32,
    pub edge: u32,
}

/// Ends of edges in order of their nodes, among them both ends of each edge with a gap; and for each node the place
/// from which on no smaller node stands.
#[derive(Debug, Drop)]
pub struct Adjacency {
    pub ends: Vec<End>,
    pub first: Vec<u32>,
}

/// The nodes that were seen: a queue of them, the place of each in it, and the edge over which each was reached. The place of a
/// node that wasn't seen is the number of nodes.
#[derive(Debug, Drop)]
pub struct Search {
    pub place: Vec<u32>,
    pub queue: Vec<u32>,
    pub way: Vec<u32>,
    pub seen: u32,
}

impl Search {
    /// Room for a search among so many nodes.
    pub fn new(alloc: Global, nodes: u32) -> Result<Search, AllocError>
        ensures { IfOk result (HasRoom nodes) }
    {
        let place = vec![in alloc; nodes; nodes as usize]?;
        let queue = vec![in alloc; 0; nodes as usize]?;
        let way = vec![in alloc; 0; nodes as usize]?;
        Ok(Search {
            place,
            queue,
            way,
            seen: 0,
        })
    }

    /// Begins again: only `node` is seen.
    pub fn start(&mut self, node: u32)
        requires room { HasRoom (length self.old.place.items) self.old }
        requires known { node < length self.old.place.items }
        ensures reached { (edges : List Edge) → Reached edges (length self.old.place.items) self.new }
        ensures seen { self.new.seen ≡ 1 }
        ensures first { slice_index self.new.place.items node ≡ 0 }
    {
        let nodes = self.place.len() as u32;
        self.place.fill(nodes);
        self.place[node as usize] = 0;
        self.queue[0] = node;
        self.seen = 1;
    }

    /// Whether a node was seen.
    pub fn is_seen(&self, node: u32) -> bool
        requires { node < length self.now.place.items }
        ensures { IsTrue result ↔ (slice_index self.now.place.items node < self.now.seen) }
    {
        self.place[node as usize] < self.seen
    }

    /// Sees a node that wasn't seen, over this edge.
    pub fn see(&mut self, node: u32, edge: u32)
        requires room { HasRoom (length self.old.place.items) self.old }
        requires marked { Marked (length self.old.place.items) self.old.place.items self.old.queue.items self.old.seen }
        requires known { node < length self.old.place.items }
        requires unseen { slice_index self.old.place.items node ≡ length self.old.place.items }
        ensures room { HasRoom (length self.old.place.items) self.new }
        ensures marked { Marked (length self.old.place.items) self.new.place.items self.new.queue.items self.new.seen }
        ensures seen { self.new.seen ≡ self.old.seen + 1 }
        ensures place { self.new.place.items ≡ slice_set self.old.place.items node self.old.seen }
        ensures way { self.new.way.items ≡ slice_set self.old.way.items node edge }
    {
        self.place[node as usize] = self.seen;
        self.queue[self.seen as usize] = node;
        self.way[node as usize] = edge;
        self.seen += 1;
    }
}

/// Sees the node to which an edge may be pushed from `node`, if that is new.
fn visit(edges: &[Edge], search: &mut Search, node: u32, edge: u32)
    requires reached { Reached edges.now (length search.old.place.items) search.old }
    requires inside { All (IsInside (length search.old.place.items)) edges.now }
    requires known { edge < length edges.now }
    requires here { (node < length search.old.place.items) × (slice_index search.old.place.items node < search.old.seen) }
    ensures reached { Reached edges.now (length search.old.place.items) search.new }
    ensures later { IsLater search.old search.new }
    ensures followed { IsFollowed edges.now search.new node edge }
{
    if let Some(next) = edges[edge as usize].leads(node) {
        if !search.is_seen(next) {
            search.see(next, edge);
        }
    }
}

/// Sees the nodes to which edges may be pushed from `node`.
fn look(edges: &[Edge], adjacency: &Adjacency, search: &mut Search, node: u32)
    requires adjacent { IsAdjacency (length search.old.place.items) adjacency.now edges.now }
    requires reached { Reached edges.now (length search.old.place.items) search.old }
    requires inside { All (IsInside (length search.old.place.items)) edges.now }
    requires here { (node < length search.old.place.items) × (slice_index search.old.place.items node < search.old.seen) }
    ensures reached { Reached edges.now (length search.old.place.items) search.new }
    ensures later { IsLater search.old search.new }
    ensures followed { (b : ℕ) → b < length edges.now → IsFollowed edges.now search.new node b }
{
    let ends = adjacency.ends.as_slice();
    let mut at = adjacency.first[node as usize] as usize;
    while at < ends.len() && ends[at].node == node {
        visit(edges, search, node, ends[at].edge);
        at += 1;
    }
}

/// Searches for a way from one node to another along edges that may be pushed. Either the second node is seen, or all that can
/// be reached is.
pub fn find(edges: &[Edge], adjacency: &Adjacency, search: &mut Search, from: u32, to: u32)
    requires adjacent { IsAdjacency (length search.old.place.items) adjacency.now edges.now }
    requires room { HasRoom (length search.old.place.items) search.old }
    requires inside { All (IsInside (length search.old.place.items)) edges.now }
    requires start { from < length search.old.place.items }
    requires end { to < length search.old.place.items }
    ensures reached { Reached edges.now (length search.old.place.items) search.new }
    ensures first { slice_index search.new.place.items from ≡ 0 }
    ensures found { (slice_index search.new.place.items to < search.new.seen) ⊎ IsExplored edges.now search.new search.new.seen }
{
    search.start(from);
    let mut taken = 0;
    while taken < search.seen && !search.is_seen(to) {
        let node = search.queue[taken as usize];
        look(edges, adjacency, search, node);
        taken += 1;
    }
}
