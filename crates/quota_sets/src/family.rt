//! Families of sets with quotas, numbered from 1. Which sets cross is not known here.

ghost use Rattle.std.specs.Prelude.{◌≡◌, ◌+◌, ◌-◌, ◌<◌, ◌≤◌, ◌↔◌, ◌++◌, [], ◌∷◌, length, slice_get, IsTrue, IsSome, IfSome, IfOk, IfErr, OnOk, OnErr};
ghost use Rattle.definitions.specs.Sets.{IsFamily, IsInRange, IsSet, cells_in, set_cells, set_sum, units_of};
ghost use Rattle.quota_sets.specs.InsertRefusals.{refused_set, is_too_many_sets, is_too_many_cells};

use crate::matrix::Scaled;
use crate::quota_set::QuotaSet;
use indexmap::IndexMap;
use std::alloc::Global;
use std::marker::Model;

/// The most sets that a family may have.
const MOST_SETS: usize = 2000;

/// The most cells that the sets of a family may have, counted over all sets.
const MOST_CELLS: usize = 1_201_000;

/// Sets over the cells of a matrix with so many agents and columns, numbered from 1 in the order in
/// which they were added.
///
/// There are at most 1,000 agents, 201 columns, 2,000 sets, and 1,201,000 cells counted over all
/// sets.
#[derive(Debug, Drop)]
pub struct Family {
    agents: u32,
    columns: u32,
    total: u32,
    sets: IndexMap<u32, QuotaSet>,
}

impl Model for Family {
    ghost use Rattle.std.specs.Prelude.{map};
    ghost use Rattle.definitions.specs.Sets.{FamilyValue};
    ghost use Rattle.quota_sets.specs.Numbered.{AreNumberedSets};

    ghost Value = { FamilyValue };

    ghost view = { λ f. record {
      agents = f.agents;
      columns = f.columns;
      sets = map (λ e. e.1) f.sets.entries;
    } };

    ghost invariant = { λ f. AreNumberedSets f.agents f.columns f.total f.sets.entries };
}

/// Why a set was not added, with the set.
#[derive(Debug, Drop)]
pub enum InsertFault {
    /// There are 2,000 sets already.
    TooManySets(QuotaSet),
    /// With this set there would be more than 1,201,000 cells.
    TooManyCells(QuotaSet),
    /// Memory was refused.
    NoMemory(QuotaSet),
}

impl Family {
    /// The family without sets over so many agents and columns. It grows by `alloc`.
    pub fn new(alloc: Global, agents: u32, columns: u32) -> Family
        requires agents { agents ≤ 1000 }
        requires columns { columns ≤ 201 }
        ensures { result ≡ record { agents = agents; columns = columns; sets = [] } }
    {
        Family {
            agents,
            columns,
            total: 0,
            sets: IndexMap::new(alloc),
        }
    }

    /// Adds a set at the end and answers its number. A 2,001st set is refused as `TooManySets`, any
    /// other set whose cells would bring their number above 1,201,000 as `TooManyCells`. A refusal
    /// hands the set back and leaves the family.
    pub fn insert(&mut self, set: QuotaSet) -> Result<u32, InsertFault>
        requires { IsInRange self.old.agents self.old.columns set }
        ensures number { IfOk result (λ number. number ≡ length self.old.sets + 1) }
        ensures added { OnOk result (self.new
            ≡ record self.old { sets = self.old.sets ++ set ∷ [] }) }
        ensures room { OnOk result ((length self.old.sets < 2000)
            × (cells_in self.old.sets + length set.cells ≤ 1201000)) }

        ensures unchanged { OnErr result (self.new ≡ self.old) }
        ensures handed_back { IfErr result (λ e. refused_set e ≡ set) }
        ensures too_many_sets { IfErr result (λ e. IsTrue (is_too_many_sets e)
            ↔ (length self.old.sets ≡ 2000)) }
        ensures too_many_cells { IfErr result (λ e. IsTrue (is_too_many_cells e)
            ↔ ((length self.old.sets < 2000)
            × (1201000 < cells_in self.old.sets + length set.cells))) }
        ensures lawful { IsFamily self.new }
    {
        let count = self.sets.len();
        if count >= MOST_SETS {
            return Err(InsertFault::TooManySets(set));
        }
        let cells = set.cells().len();
        if cells > MOST_CELLS - self.total as usize {
            return Err(InsertFault::TooManyCells(set));
        }
        let number = count as u32 + 1;
        match self.sets.insert(number, set) {
            Ok(_) => {
                self.total += cells as u32;
                Ok(number)
            }
            Err(refused) => Err(InsertFault::NoMemory(refused.value.1)),
        }
    }

    /// The set with this number, or `None` where there is none.
    pub fn get(&self, set: u32) -> Option<&QuotaSet>
        ensures found { IsSome result ↔ IsSet self.now set }
        ensures value { IfSome result (λ s. slice_get self.now.sets (set - 1) ≡ Some s.now) }
        ensures lawful { IsFamily self.now }
    {
        let sets = &self.sets;
        if set == 0 {
            return None;
        }
        let (_, found) = sets.get_index(set as usize - 1)?;
        Some(found)
    }

    /// How many sets there are.
    pub fn len(&self) -> u32
        ensures value { result ≡ length self.now.sets }
        ensures lawful { IsFamily self.now }
    {
        self.sets.len() as u32
    }

    /// The number of agents that cells may name.
    pub fn agents(&self) -> u32
        ensures value { result ≡ self.now.agents }
        ensures lawful { IsFamily self.now }
    {
        self.agents
    }

    /// The number of columns that cells may name.
    pub fn columns(&self) -> u32
        ensures value { result ≡ self.now.columns }
        ensures lawful { IsFamily self.now }
    {
        self.columns
    }

    /// The units of a matrix of the family's shape in all cells of the set with this number.
    pub fn sum(&self, set: u32, x: &Scaled) -> u128
        requires known { IsSet self.now set }
        requires agents { x.now.agents ≡ self.now.agents }
        requires columns { x.now.columns ≡ self.now.columns }
        ensures value { result ≡ set_sum (units_of x.now) (set_cells self.now set) }
        ensures lawful { IsFamily self.now }
    {
        x.sum_over(self.get(set).unwrap())
    }
}
