//! The sides of a family, or an odd ring.

ghost use Rattle.std.specs.Prelude.{◌↔◌, IfOk, IsTrue, nat_eq};
ghost use Rattle.std.specs.List.{IsDistinct};
ghost use Rattle.definitions.specs.Sets.{cells_of};
ghost use Rattle.definitions.specs.Sides.{IsOddRing, IsSplit};
ghost use Rattle.side_finder.specs.Answers.{HasNoColoring, IfRing, IfSplit, IsTheSplit, is_ring};

use crate::SideFault;
use crate::crossings::Crossings;
use crate::forest::{forest_of, sides_of, twins};
use crate::ring::ring_of;
use quota_sets::Family;
use std::alloc::Global;

/// What is found: a side for each set, or an odd ring.
#[derive(Debug, Drop)]
pub enum Sides {
    /// For each set, in the order of the family, its side, 1 or 2. No two sets of one side cross.
    Split(Vec<u8>),
    /// The numbers of an odd number of sets, at least three, each once. Each crosses the next, and the last crosses the
    /// first.
    Ring(Vec<u32>),
}

/// The sides on which the sets of a family can stand, or an odd ring of its sets where there are none. The sides that the
/// sets have aren't looked at.
///
/// Sets are of one part where crossing sets lead from one to the other. The set with the least number of each part is on
/// side 1, which leaves one choice. Which ring is answered is free.
pub fn find_sides(alloc: Global, family: &Family) -> Result<Sides, SideFault>
    ensures split { IfOk result (IfSplit (IsSplit (cells_of family.now))) }
    ensures one { IfOk result (IfSplit (IsTheSplit (cells_of family.now))) }
    ensures ring { IfOk result (IfRing (IsOddRing (cells_of family.now))) }
    ensures distinct { IfOk result (IfRing (IsDistinct nat_eq)) }
    ensures exact { IfOk result (λ r. IsTrue (is_ring r) ↔ HasNoColoring (cells_of family.now)) }
{
    let crossings = Crossings::of(alloc, family)?;
    let forest = forest_of(alloc, &crossings)?;
    let marks = forest.as_slice();
    match twins(&crossings, marks) {
        Some(pair) => {
            let ring = ring_of(alloc, marks, pair.0, pair.1)?;
            Ok(Sides::Ring(ring))
        }
        None => {
            let sides = sides_of(alloc, marks)?;
            Ok(Sides::Split(sides))
        }
    }
}
