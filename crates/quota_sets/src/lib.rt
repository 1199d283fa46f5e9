//! What the crates above share: names, sets with quotas and families of them, problems, and
//! matrices of whole numbers over a denominator. What is read, designed or drawn is not known here.
//!
//! ```text
//! let mut names = Names::new(alloc);
//! names.add_copy("Ada")?;
//! assert_eq!(rt; names.name_at(0), "Ada");
//!
//! let matrix = Scaled::new(2, 1, 2, vec![in alloc; 1, 2]?);
//! let mut family = Family::new(alloc, 1, 2);
//! let both = vec![in alloc; first_at(0), first_at(1)]?;
//! let number = family.insert(QuotaSet::new(1, 0, 1, both))?;
//! assert_eq!(rt; number, 1);
//! assert_eq!(rt; matrix.meets(&family), Err(Infeasible { set: 1, sum: 3 }));
//! ```
#![tactic(auto)]

mod family;
mod feasibility;
mod matrix;
mod name_list;
mod problem;
mod quota_set;
mod rows;

pub use definitions::{Cell, Give, Infeasible, Piece, Pieces, Prices};
pub use family::{Family, InsertFault};
pub use matrix::Scaled;
pub use name_list::{NameFault, Names};
pub use problem::{Problem, ProblemFault};
pub use quota_set::QuotaSet;
use std::alloc::{AllocError, AllocFailed};

/// Memory was refused. It is the only refusal of the calls that have this error.
#[derive(Clone, Copy, Debug, PartialEq, Eq)]
pub struct NoMemory;

impl From<AllocError> for NoMemory {
    fn from(_: AllocError) -> NoMemory {
        NoMemory
    }
}

impl<T: Drop> From<AllocFailed<T>> for NoMemory {
    fn from(_: AllocFailed<T>) -> NoMemory {
        NoMemory
    }
}

#[cfg(test)]
mod tests;
