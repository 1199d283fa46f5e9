//! Sides for sets that have none: from a family whose sides aren't looked at, the sides on which each set can stand,
//! so that no two sets of one side cross, or an odd ring of sets in which each crosses the next.
//!
//! Two sets cross where they share a cell and neither contains the other. The sides are a colouring of the sets with
//! two colours, in which sets that cross differ; it is there exactly where no odd ring is.
//!
//! ```rust
//! use side_finder::{Sides, apply_sides, find_sides};
//!
//! match find_sides(alloc, &family)? {
//!     Sides::Split(sides) => {
//!         let freed = apply_sides(alloc, &family, &sides)?;
//!         let trees = Trees::of(alloc, &freed)?;
//!     }
//!     Sides::Ring(ring) => print_ring(&ring),
//! }
//! ```
#![tactic(auto)]

mod apply;
mod crossings;
mod find;
mod forest;
mod overlaps;
mod ring;

pub use apply::apply_sides;
pub use find::{Sides, find_sides};
use std::alloc::AllocError;

/// Why sides were not found or applied.
#[derive(Clone, Copy, Debug, PartialEq, Eq)]
pub enum SideFault {
    /// Memory was refused.
    NoMemory,
}

impl From<AllocError> for SideFault {
    fn from(_: AllocError) -> SideFault {
        SideFault::NoMemory
    }
}
