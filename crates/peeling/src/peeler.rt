//! A decomposition under way.

ghost use Rattle.std.specs.Prelude.{◌≡◌, ℕ, ◌<◌, List, IfOk, IsSome, MatchOption, Some, slice_index};
ghost use Rattle.definitions.specs.Sets.{IsCellWithin, cell_index};
ghost use Rattle.definitions.specs.Trees.{AreTreesOf};
ghost use Rattle.definitions.specs.Peelings.{IsStep};
ghost use Rattle.peeling.specs.Peelers.{IsPeeler, IsStart};

use bihierarchy::Trees;
use bounded_flow::Net;
use quota_sets::{Cell, Family, NoMemory, Scaled};
use std::alloc::Global;
use std::marker::Model;

/// A decomposition under way: what is left of a matrix and of its denominator, and the piece last given.
///
/// The weight left and the weights given add up to the denominator of the matrix, at most 2^116, which never changes,
/// as the sets never do. There are at most 1,000 agents, 201 columns and 2,000 sets, so at most
/// 203,001 pieces.
#[derive(Debug, Drop)]
pub struct Peeler {
    net: Net,
    given: u128,
}

impl Model for Peeler {
    ghost use Rattle.std.specs.Prelude.{◌==◌, if◌then◌else◌, None, Some};
    ghost use Rattle.definitions.specs.Peelings.{PeelerValue};
    ghost use Rattle.peeling.specs.Peelers.{IsPeeler};
    ghost use Rattle.peeling.specs.Views.{peeler_of};

    ghost Value = { PeelerValue };

    ghost view = { λ p. peeler_of p.net p.given };

    ghost invariant = { λ p. IsPeeler (peeler_of p.net p.given) };
}

impl Peeler {
    /// The decomposition of a matrix for a family, with nothing given yet. `NoMemory` may come at any matrix; no later
    /// call takes memory.
    pub fn new(
        alloc: Global,
        trees: &Trees,
        family: &Family,
        x: &Scaled,
    ) -> Result<Peeler, NoMemory>
        requires trees { AreTreesOf family.now trees.now }
        requires agents { x.now.agents ≡ family.now.agents }
        requires columns { x.now.columns ≡ family.now.columns }
        ensures start { IfOk result (IsStart family.now x.now) }
        ensures lawful { IfOk result IsPeeler }
    {
        let net = Net::of(alloc, trees, family, x)?;
        Ok(Peeler { net, given: 0 })
    }

    /// Gives the next piece and answers its weight, or `None` where the weights given add up to the denominator.
    ///
    /// The piece rounds what is left at each cell and set. What is left afterwards has fewer cells and sets that aren't
    /// whole, and nothing that rounds it is a piece that was given.
    pub fn next(&mut self) -> Option<u128>
        ensures step { MatchOption result ((self.old.left ≡ 0) × (self.new ≡ self.old))
            (λ w. (m : List ℕ) × IsStep self.old self.new w m) }
        ensures lawful { IsPeeler self.new }
    {
        if self.net.left() == 0 {
            return None;
        }
        self.net.round();
        let weight = self.net.greatest_weight();
        self.net.take(weight);
        self.given += weight;
        Some(weight)
    }

    /// How many units the piece last given has at a cell.
    pub fn piece(&self, cell: Cell) -> u32
        requires given { IsSome self.now.piece }
        requires cell { IsCellWithin self.now.agents self.now.columns cell }
        ensures value { (m : List ℕ) → self.now.piece ≡ Some m → result ≡ slice_index m (cell_index self.now.columns cell) }
        ensures lawful { IsPeeler self.now }
    {
        self.net.whole(cell)
    }

    /// The sum of the weights given.
    pub fn given(&self) -> u128
        ensures value { result ≡ self.now.given }
        ensures lawful { IsPeeler self.now }
    {
        self.given
    }

    /// The number of rows.
    pub fn agents(&self) -> u32
        ensures value { result ≡ self.now.agents }
        ensures lawful { IsPeeler self.now }
    {
        self.net.agents()
    }

    /// The number of columns.
    pub fn columns(&self) -> u32
        ensures value { result ≡ self.now.columns }
        ensures lawful { IsPeeler self.now }
    {
        self.net.columns()
    }
}
