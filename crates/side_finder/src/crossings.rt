//! Which sets of a family cross. Cells aren't known above here.

ghost use Rattle.std.specs.Prelude.{◌≡◌, ◌/◌, ◌<◌, ◌&&◌, not, IfOk};
ghost use Rattle.definitions.specs.Sets.{cells_of};
ghost use Rattle.side_finder.specs.Blocks.{has_bit};
ghost use Rattle.side_finder.specs.Graphs.{IsCrossingGraph, IsGraphOf, joined, overlap_at};

use crate::overlaps::{BLOCK, Overlap, overlaps_of};
use quota_sets::Family;
use std::alloc::{AllocError, Global};
use std::marker::Model;

/// Which sets of a family cross. Sets are named by their indexes, from 0.
#[derive(Debug, Drop)]
pub(crate) struct Crossings {
    sets: u32,
    blocks: Vec<Vec<Overlap>>,
}

impl Model for Crossings {
    ghost use Rattle.std.specs.Prelude.{map};
    ghost use Rattle.side_finder.specs.Graphs.{AreRows, GraphValue};

    ghost Value = { GraphValue };

    ghost view = { λ c. record { size = c.sets; rows = map (λ row. row.items) c.blocks.items } };

    ghost invariant = { λ c. AreRows c.sets (map (λ row. row.items) c.blocks.items) };
}

impl Crossings {
    /// The crossings of a family's sets.
    pub(crate) fn of(alloc: Global, family: &Family) -> Result<Crossings, AllocError>
        ensures graph { IfOk result (IsGraphOf (cells_of family.now)) }
        ensures lawful { IfOk result IsCrossingGraph }
    {
        let sets = family.len();
        let mut blocks = Vec::new(alloc);
        for block in 0..sets / BLOCK + 1 {
            blocks.push(overlaps_of(alloc, family, block)?)?;
        }
        Ok(Crossings { sets, blocks })
    }

    /// How many sets there are.
    pub(crate) fn len(&self) -> u32
        ensures { result ≡ self.now.size }
    {
        self.sets
    }

    /// What the sets in the block of one set are to another set.
    fn overlap(&self, set: u32, other: u32) -> Overlap
        requires set { set < self.now.size }
        requires other { other < self.now.size }
        ensures { result ≡ overlap_at self.now.rows (other / 64) set }
    {
        let row = self.blocks[(other / BLOCK) as usize].as_slice();
        row[set as usize]
    }

    /// Whether two sets cross.
    pub(crate) fn cross(&self, first: u32, second: u32) -> bool
        requires first { first < self.now.size }
        requires second { second < self.now.size }
        ensures { result ≡ joined self.now first second }
    {
        let there = self.overlap(first, second);
        let back = self.overlap(second, first);
        crosses_by(
            is_set(there.sharing, second % BLOCK),
            is_set(there.containing, second % BLOCK),
            is_set(back.containing, first % BLOCK),
        )
    }
}

/// Whether a bit of a word is set.
fn is_set(word: u64, bit: u32) -> bool
    requires { bit < 64 }
    ensures { result ≡ has_bit word bit }
{
    word >> bit & 1 == 1
}

/// Whether a set crosses one with which it shares a cell or not, within which it lies or not, and which it contains or not.
fn crosses_by(shares: bool, is_within: bool, contains: bool) -> bool
    ensures { result ≡ (shares && (not is_within && not contains)) }
{
    shares && !is_within && !contains
}
