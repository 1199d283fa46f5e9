// Making the graph of two trees, with all of a matrix left.

ghost use Rattle.std.specs.Prelude.{◌≡◌, ◌+◌, ◌*◌, ◌/◌, ◌%◌, ◌^◌, ◌<◌, ◌≤◌, ◌++◌, ◌∷◌, [], length, map, All, IfOk, IfSome, OnOk};
ghost use Rattle.std.specs.List.Sorted.{IsNonDecreasingBy};
ghost use Rattle.definitions.specs.Trees.{AreTreesOf, chain_of};
ghost use Rattle.definitions.specs.Sets.{IsSet, cell_of};
ghost use Rattle.bounded_flow.specs.Flows.{IsInside};
ghost use Rattle.bounded_flow.specs.Loads.{IsLoaded, empty_edge, climbed, AreEnds, AreFirsts};
ghost use Rattle.bounded_flow.specs.Nets.{side_sets};
ghost use Rattle.bounded_flow.specs.Searches.{IsAdjacency};
ghost use Rattle.bounded_flow.specs.Webs.{held_sets};
ghost use Rattle.bounded_flow.specs.Wires.{wires_of, set_wire, cell_wires, node_of};

use crate::edge::Edge;
use crate::held::HeldSet;
use crate::search::{Adjacency, End};
use bihierarchy::Trees;
use quota_sets::{Cell, Family, Scaled};
use std::alloc::{AllocError, Global};

/// The sides and cells of the sets of a family.
pub fn sets_of(alloc: Global, family: &Family) -> Result<Vec<HeldSet>, AllocError>
    ensures { IfOk result (λ sets. held_sets sets.items ≡ side_sets family.now) }
{
    let mut sets = Vec::new(alloc);
    for number in 1..family.len() + 1 {
        let set = family.get(number).unwrap();
        let cells = set.cells().to_vec(alloc)?;
        sets.push(HeldSet {
            side: set.side(),
            cells,
        })?;
    }
    Ok(sets)
}

/// An edge with nothing on it. The ends are sets, or the root where there is none.
fn empty_edge(tail: Option<u32>, head: Option<u32>) -> Edge
    ensures { result ≡ empty_edge (node_of tail, node_of head) }
{
    Edge {
        tail: tail.unwrap_or(0),
        head: head.unwrap_or(0),
        whole: 0,
        under: 0,
        over: 0,
    }
}

/// The cell that stands at this place, row by row.
fn cell_at(columns: u32, place: usize) -> Cell
    requires some { 0 < columns }
    requires few { place < 2 ^ 32 }
    ensures { result ≡ cell_of (place / columns) (place % columns) }
{
    Cell {
        agent: (place / columns as usize) as u32,
        object: (place % columns as usize) as u32,
    }
}

/// The edges of the cells, row by row.
fn push_cells(edges: &mut Vec<Edge>, trees: &Trees, family: &Family) -> Result<(), AllocError>
    requires { AreTreesOf family.now trees.now }
    ensures { OnOk result (edges.new.items ≡ edges.old.items ++ map empty_edge (cell_wires family.now trees.now)) }
{
    let columns = family.columns();
    for place in 0..family.agents() as usize * columns as usize {
        let cell = cell_at(columns, place);
        edges.push(empty_edge(trees.deepest(1, cell), trees.deepest(2, cell)))?;
    }
    Ok(())
}

/// The edge of a set.
fn set_edge(trees: &Trees, family: &Family, set: u32) -> Edge
    requires trees { AreTreesOf family.now trees.now }
    requires known { IsSet family.now set }
    ensures { result ≡ empty_edge (set_wire family.now trees.now set) }
{
    let parent = trees.parent(set);
    if family.get(set).unwrap().side() == 1 {
        empty_edge(parent, Some(set))
    } else {
        empty_edge(Some(set), parent)
    }
}

/// The edges of cells and sets, with nothing on them.
pub fn edges_of(alloc: Global, trees: &Trees, family: &Family) -> Result<Vec<Edge>, AllocError>
    requires { AreTreesOf family.now trees.now }
    ensures { IfOk result (λ edges. edges.items ≡ map empty_edge (wires_of family.now trees.now)) }
{
    let mut edges = Vec::new(alloc);
    push_cells(&mut edges, trees, family)?;
    for set in 1..family.len() + 1 {
        edges.push(set_edge(trees, family, set))?;
    }
    Ok(edges)
}

/// Puts units on the edges of a set and all sets above it.
fn climb(edges: &mut [Edge], trees: &Trees, family: &Family, start: Option<u32>, units: u128)
    requires trees { AreTreesOf family.now trees.now }
    requires many { length edges.old ≡ family.now.agents * family.now.columns + length family.now.sets }
    requires start { IfSome start (IsSet family.now) }
    requires room { All (λ e. e.under + units < 2 ^ 128) edges.old }
    ensures { edges.new ≡ climbed (family.now.agents * family.now.columns) units (chain_of trees.now start) edges.old }
{
    let cells = family.agents() as usize * family.columns() as usize;
    let mut at = start;
    while let Some(set) = at {
        edges[cells + set as usize - 1].under += units;
        at = trees.parent(set);
    }
}

/// Puts the units of each cell on its edge and on the edges of all sets that hold it.
pub fn load(edges: &mut [Edge], trees: &Trees, family: &Family, x: &Scaled)
    requires trees { AreTreesOf family.now trees.now }
    requires agents { x.now.agents ≡ family.now.agents }
    requires columns { x.now.columns ≡ family.now.columns }
    requires empty { edges.old ≡ map empty_edge (wires_of family.now trees.now) }
    ensures { IsLoaded (length family.now.sets + 1) (wires_of family.now trees.now) x.now.units edges.new }
{
    let columns = x.columns();
    let cells = family.agents() as usize * columns as usize;
    for place in 0..cells {
        let cell = cell_at(columns, place);
        let units = x.at(cell);
        edges[place].under += units;
        climb(edges, trees, family, trees.deepest(1, cell), units);
        climb(edges, trees, family, trees.deepest(2, cell), units);
    }
}

/// Both ends of an edge.
fn push_ends(ends: &mut Vec<End>, edge: &Edge, number: u32) -> Result<(), AllocError>
    ensures { OnOk result (ends.new.items
        ≡ (ends.old.items ++ record { node = edge.now.tail; edge = number } ∷ [])
        ++ record { node = edge.now.head; edge = number } ∷ []) }
{
    ends.push(End {
        node: edge.tail,
        edge: number,
    })?;
    ends.push(End {
        node: edge.head,
        edge: number,
    })?;
    Ok(())
}

/// Both ends of each edge with a gap. An edge without one is never pushed, and no push gives it one.
fn ends_of(alloc: Global, edges: &[Edge]) -> Result<Vec<End>, AllocError>
    requires { length edges.now ≤ 203000 }
    ensures ends { IfOk result (λ ends. AreEnds edges.now (length edges.now) ends.items) }
    ensures few { IfOk result (λ ends. length ends.items ≤ 2 * length edges.now) }
{
    let mut ends = Vec::new(alloc);
    for (index, edge) in edges.iter().enumerate() {
        if edge.is_off() {
            push_ends(&mut ends, edge, index as u32)?;
        }
    }
    Ok(ends)
}

/// For each node the place from which on no smaller node stands.
fn firsts_of(alloc: Global, ends: &[End], nodes: u32) -> Result<Vec<u32>, AllocError>
    requires order { IsNonDecreasingBy (λ e. e.node) ends.now }
    requires few { length ends.now ≤ 406000 }
    ensures { IfOk result (λ first. AreFirsts nodes ends.now first.items) }
{
    let mut first = Vec::new(alloc);
    for node in 0..nodes {
        first.push(ends.partition_point(|end| end.node < node) as u32)?;
    }
    Ok(first)
}

/// The ends of the edges with a gap in order of their nodes.
pub fn adjacency_of(alloc: Global, edges: &[Edge], nodes: u32) -> Result<Adjacency, AllocError>
    requires inside { All (IsInside nodes) edges.now }
    requires few { length edges.now ≤ 203000 }
    ensures { IfOk result (λ a. IsAdjacency nodes a edges.now) }
{
    let mut ends = ends_of(alloc, edges)?;
    ends.sort()?;
    let first = firsts_of(alloc, &ends, nodes)?;
    Ok(Adjacency { ends, first })
}
