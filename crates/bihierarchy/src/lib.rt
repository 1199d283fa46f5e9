//! The two hierarchies of a family of sets with quotas: for each set the next set above it, and for each side and
//! cell the deepest set; or the least pair of sets of one side that cross.
//!
//! Two sets cross where they share a cell and neither contains the other. Where no two sets of one side cross, the
//! sets of each side form trees (Budish, Che, Kojima and Milgrom 2013).
//!
//! ```rust
//! use bihierarchy::Trees;
//! use quota_sets::{Cell, Family, QuotaSet};
//!
//! let first = Cell { agent: 0, object: 0 };
//! let second = Cell { agent: 1, object: 0 };
//! let mut family = Family::new(alloc, 2, 1);
//! family.insert(QuotaSet::new(2, 0, 1, vec![in alloc; first, second]?))?;
//! family.insert(QuotaSet::new(2, 0, 1, vec![in alloc; first]?))?;
//! let trees = Trees::of(alloc, &family)?;
//! assert_eq!(rt; trees.parent(2), Some(1));
//! assert_eq!(rt; trees.deepest(2, second), Some(1));
//! ```
#![tactic(auto)]

mod crossing;
mod holders;
mod overlap;
mod parents;
mod trees;

pub use trees::{Trees, TreesFault};
