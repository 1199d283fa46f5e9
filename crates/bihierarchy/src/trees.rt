//! The two trees of a family as tables, or why it has none. How they are made stands in the other files.

ghost use Rattle.std.specs.Prelude.{◌≡◌, ◌<◌, ◌≤◌, ◌⊎◌, IfOk, IfErr};
ghost use Rattle.definitions.specs.Trees.{IsTrees, AreTreesOf, parent_at, deepest_at};
ghost use Rattle.definitions.specs.Sets.{IsCellWithin};
ghost use Rattle.bihierarchy.specs.Crossing.{IsCrossingFault};

use crate::crossing::least_pair;
use crate::holders::deepest_of;
use crate::parents::parents_of;
use quota_sets::{Cell, Family};
use std::alloc::{AllocError, Global};
use std::marker::Model;

/// The two trees of a family: the parent of each set, and the deepest set of each side at each cell.
///
/// The parent of a set that isn't empty is, among the other sets of its side that contain it and are larger, or
/// equal it and have a higher number, the least by size and then number. An empty set has no parent and is
/// nobody's parent. The deepest set at a cell is the least set of the side by size and then number that holds it.
#[derive(Debug, Drop)]
pub struct Trees {
    sets: u32,
    agents: u32,
    columns: u32,
    parents: Vec<Option<u32>>,
    deepest_one: Vec<Option<u32>>,
    deepest_two: Vec<Option<u32>>,
}

impl Model for Trees {
    ghost use Rattle.definitions.specs.Trees.{TreesValue, IsTrees};
    ghost use Rattle.bihierarchy.specs.Tables.{trees_from};

    ghost Value = { TreesValue };

    ghost view = { λ t. trees_from t.sets t.agents t.columns t.parents.items
        t.deepest_one.items t.deepest_two.items };

    ghost invariant = { λ t. IsTrees (trees_from t.sets t.agents t.columns t.parents.items
        t.deepest_one.items t.deepest_two.items) };
}

/// Why a family has no trees.
#[derive(Clone, Copy, Debug, PartialEq, Eq)]
pub enum TreesFault {
    /// Two sets of one side cross.
    Crossing {
        /// The lower number of the pair.
        first: u32,
        /// The higher number of the pair.
        second: u32,
    },
    /// Memory was refused.
    NoMemory,
}

impl From<AllocError> for TreesFault {
    ghost use Rattle.std.specs.Prelude.{◌≡◌};
    ghost use Rattle.bihierarchy.specs.declared.trees.TreesFault.TheVariants.{NoMemory};

    ghost from_gives = { λ _ e. e ≡ NoMemory };

    fn from(_: AllocError) -> TreesFault {
        TreesFault::NoMemory
    }
}

impl Trees {
    /// The trees of a family. Where two sets of one side cross, the least such pair by the first number and then
    /// the second is refused as `Crossing`, with `first` below `second`. `NoMemory` may come at any family.
    pub fn of(alloc: Global, family: &Family) -> Result<Trees, TreesFault>
        ensures trees { IfOk result (λ t. AreTreesOf family.now t) }
        ensures crossing { IfErr result (IsCrossingFault family.now) }
    {
        if let Some((first, second)) = least_pair(family) {
            return Err(TreesFault::Crossing { first, second });
        }
        let parents = parents_of(alloc, family)?;
        let deepest_one = deepest_of(alloc, family, 1)?;
        let deepest_two = deepest_of(alloc, family, 2)?;
        Ok(Trees {
            sets: family.len(),
            agents: family.agents(),
            columns: family.columns(),
            parents,
            deepest_one,
            deepest_two,
        })
    }

    /// The parent of a set, or `None` where it has none.
    pub fn parent(&self, set: u32) -> Option<u32>
        requires { (0 < set) × (set ≤ self.now.sets) }
        ensures value { result ≡ parent_at self.now set }
        ensures lawful { IsTrees self.now }
    {
        self.parents[set as usize - 1]
    }

    /// The deepest set of a side that holds a cell, or `None` where none holds it.
    pub fn deepest(&self, side: u8, cell: Cell) -> Option<u32>
        requires side { (side ≡ 1) ⊎ (side ≡ 2) }
        requires cell { IsCellWithin self.now.agents self.now.columns cell }
        ensures value { result ≡ deepest_at self.now side cell }
        ensures lawful { IsTrees self.now }
    {
        let place = cell.agent as usize * self.columns as usize + cell.object as usize;
        if side == 1 {
            self.deepest_one[place]
        } else {
            self.deepest_two[place]
        }
    }
}
