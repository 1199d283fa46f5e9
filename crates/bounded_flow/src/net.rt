//! Nets: what is left of a matrix, and a whole matrix that rounds it.

ghost use Rattle.std.specs.Prelude.{◌≡◌, ℕ, ◌+◌, ◌*◌, ◌<◌, ◌≤◌, length, slice_index, IfOk};
ghost use Rattle.definitions.specs.Trees.{AreTreesOf};
ghost use Rattle.definitions.specs.Rounding.{Rounds};
ghost use Rattle.definitions.specs.Sets.{IsCellWithin, cell_index, cells_at, set_sum, unit_at};
ghost use Rattle.rounding_laws.specs.Remainders.{AllAllow, IsTight};
ghost use Rattle.bounded_flow.specs.Nets.{IsNet, IsNetOf, net_sets};

use crate::building::{adjacency_of, edges_of, load, sets_of};
use crate::edge::Edge;
use crate::held::HeldSet;
use crate::repair::{gaps_of, greatest_gap, settle};
use crate::search::{Adjacency, Search};
use bihierarchy::Trees;
use key_queue::{Falling, Queue};
use quota_sets::{Cell, Family, NoMemory, Scaled};
use std::alloc::{AllocError, Global};
use std::marker::Model;

/// What is left of a matrix over the weight left, a whole matrix, and the sets at which the one rounds the other.
///
/// There are at most 1,000 agents, 201 columns and 2,000 sets, of which no two of one side cross. The weight left is at most
/// 2^116, each cell has at most 1,000 times the weight left, all cells together at most 1,000 * 2^116, and each cell of the whole
/// matrix is at most 1,000.
#[derive(Debug, Drop)]
pub struct Net {
    agents: u32,
    columns: u32,
    sets: Vec<HeldSet>,
    edges: Vec<Edge>,
    gaps: Queue<Falling>,
    adjacency: Adjacency,
    search: Search,
    left: u128,
}

impl Model for Net {
    ghost use Rattle.std.specs.Prelude.{map, take, ◌*◌};
    ghost use Rattle.bounded_flow.specs.Edges.{rest_of};
    ghost use Rattle.bounded_flow.specs.Nets.{NetValue};
    ghost use Rattle.bounded_flow.specs.Webs.{IsRankedWeb, held_sets};

    ghost Value = { NetValue };

    ghost view = { λ n. record { agents = n.agents; columns = n.columns; sets = held_sets n.sets.items; rest = map (rest_of n.left) (take (n.agents * n.columns) n.edges.items); left = n.left; whole = map (λ e. e.whole) (take (n.agents * n.columns) n.edges.items) } };

    ghost invariant = { λ n. IsRankedWeb n.agents n.columns n.left (held_sets n.sets.items) n.edges.items n.gaps n.adjacency n.search };
}

/// Where a cell stands row by row.
fn cell_place(columns: u32, cell: Cell) -> usize
    ensures { result ≡ cell_index columns cell }
{
    cell.agent as usize * columns as usize + cell.object as usize
}

impl Net {
    /// The net of a family and its trees, with all of a matrix of its shape left: the weight left is the denominator. Nothing is
    /// said of its whole matrix.
    pub fn of(alloc: Global, trees: &Trees, family: &Family, x: &Scaled) -> Result<Net, NoMemory>
        requires trees { AreTreesOf family.now trees.now }
        requires agents { x.now.agents ≡ family.now.agents }
        requires columns { x.now.columns ≡ family.now.columns }
        ensures net { IfOk result (IsNetOf family.now x.now) }
        ensures lawful { IfOk result IsNet }
    {
        Net::build(alloc, trees, family, x).map_err(|_| NoMemory)
    }

    /// The same, with the want of memory as it came.
    fn build(alloc: Global, trees: &Trees, family: &Family, x: &Scaled) -> Result<Net, AllocError>
        requires trees { AreTreesOf family.now trees.now }
        requires agents { x.now.agents ≡ family.now.agents }
        requires columns { x.now.columns ≡ family.now.columns }
        ensures net { IfOk result (IsNetOf family.now x.now) }
        ensures lawful { IfOk result IsNet }
    {
        let nodes = family.len() + 1;
        let left = x.denominator();
        let sets = sets_of(alloc, family)?;
        let mut edges = edges_of(alloc, trees, family)?;
        load(&mut edges, trees, family, x);
        let adjacency = adjacency_of(alloc, &edges, nodes)?;
        let gaps = gaps_of(alloc, &edges)?;
        let search = Search::new(alloc, nodes)?;
        Ok(Net {
            agents: family.agents(),
            columns: family.columns(),
            sets,
            edges,
            gaps,
            adjacency,
            search,
            left,
        })
    }

    /// Makes the whole matrix round what is left over the weight left, at each cell and in sum over each set. What is left stays.
    pub fn round(&mut self)
        requires { 1 ≤ self.old.left }
        ensures rounds { Rounds self.new.columns (net_sets self.new) self.new.rest self.new.left self.new.whole }
        ensures stays { self.new ≡ record self.old { whole = self.new.whole } }
        ensures lawful { IsNet self.new }
    {
        settle(
            &mut self.edges,
            &mut self.gaps,
            &self.adjacency,
            &mut self.search,
            self.left,
        );
    }

    /// The greatest weight that the whole matrix can be taken with: from 1 to the weight left, so that each cell and each set
    /// keeps within its bounds.
    pub fn greatest_weight(&self) -> u128
        requires rounds { Rounds self.now.columns (net_sets self.now) self.now.rest self.now.left self.now.whole }
        requires some { 1 ≤ self.now.left }
        ensures one { 1 ≤ result }
        ensures most { result ≤ self.now.left }
        ensures fits { AllAllow self.now.columns (net_sets self.now) self.now.rest self.now.left self.now.whole result }
        ensures tight { result < self.now.left → IsTight self.now.columns (net_sets self.now) self.now.rest self.now.left self.now.whole result }
        ensures lawful { IsNet self.now }
    {
        self.left - greatest_gap(&self.gaps)
    }

    /// Takes the whole matrix off what is left, with a weight at which each cell and each set keeps within its bounds. The whole
    /// matrix stays.
    pub fn take(&mut self, weight: u128)
        requires rounds { Rounds self.old.columns (net_sets self.old) self.old.rest self.old.left self.old.whole }
        requires one { 1 ≤ weight }
        requires most { weight ≤ self.old.left }
        requires fits { AllAllow self.old.columns (net_sets self.old) self.old.rest self.old.left self.old.whole weight }
        ensures left { self.new.left + weight ≡ self.old.left }
        ensures rest { (i : ℕ) → i < length self.old.rest
            → slice_index self.new.rest i + weight * slice_index self.old.whole i ≡ slice_index self.old.rest i }
        ensures shape { length self.new.rest ≡ length self.old.rest }
        ensures stays { self.new ≡ record self.old { rest = self.new.rest; left = self.new.left } }
        ensures lawful { IsNet self.new }
    {
        self.left -= weight;
    }

    /// The number of agents that cells may name.
    pub fn agents(&self) -> u32
        ensures value { result ≡ self.now.agents }
        ensures lawful { IsNet self.now }
    {
        self.agents
    }

    /// The number of columns that cells may name.
    pub fn columns(&self) -> u32
        ensures value { result ≡ self.now.columns }
        ensures lawful { IsNet self.now }
    {
        self.columns
    }

    /// The weight left.
    pub fn left(&self) -> u128
        ensures value { result ≡ self.now.left }
        ensures lawful { IsNet self.now }
    {
        self.left
    }

    /// The whole units of a cell.
    pub fn whole(&self, cell: Cell) -> u32
        requires { IsCellWithin self.now.agents self.now.columns cell }
        ensures value { result ≡ unit_at self.now.columns self.now.whole cell }
        ensures lawful { IsNet self.now }
    {
        self.edges[cell_place(self.columns, cell)].whole
    }

    /// What is left of a cell, over the weight left.
    pub fn rest(&self, cell: Cell) -> u128
        requires { IsCellWithin self.now.agents self.now.columns cell }
        ensures value { result ≡ unit_at self.now.columns self.now.rest cell }
        ensures lawful { IsNet self.now }
    {
        self.edges[cell_place(self.columns, cell)].rest(self.left)
    }

    /// The whole units in all cells of the set with this number.
    pub fn set_whole(&self, set: u32) -> u64
        requires { (0 < set) × (set ≤ length self.now.sets) }
        ensures value { result ≡ set_sum (unit_at self.now.columns self.now.whole) (cells_at (net_sets self.now) set) }
        ensures lawful { IsNet self.now }
    {
        let cells = self.agents as usize * self.columns as usize;
        self.edges[cells + set as usize - 1].whole as u64
    }

    /// What is left in all cells of the set with this number, over the weight left.
    pub fn set_rest(&self, set: u32) -> u128
        requires { (0 < set) × (set ≤ length self.now.sets) }
        ensures value { result ≡ set_sum (unit_at self.now.columns self.now.rest) (cells_at (net_sets self.now) set) }
        ensures lawful { IsNet self.now }
    {
        let cells = self.agents as usize * self.columns as usize;
        self.edges[cells + set as usize - 1].rest(self.left)
    }
}

#[cfg(test)]
mod tests;
