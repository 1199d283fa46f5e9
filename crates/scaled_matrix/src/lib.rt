//! Given shares, and the one matrix of whole numbers over their least common denominator.
//!
//! ```rust
//! use frac128::Fraction;
//! use quota_sets::{Cell, Names};
//! use scaled_matrix::{Shares, scale};
//!
//! let mut agents = Names::new(alloc);
//! agents.add(String::from_str(alloc, "x")?)?;
//! let mut objects = Names::new(alloc);
//! objects.add(String::from_str(alloc, "a")?)?;
//! objects.add(String::from_str(alloc, "b")?)?;
//! let entries = vec![in alloc; Fraction::new(25, 100), Fraction::new(1, 3)]?;
//! let x = scale(alloc, &Shares::new(agents, objects, entries))?;
//! assert_eq!(rt; x.denominator(), 12);
//! assert_eq!(rt; x.at(Cell { agent: 0, object: 1 }), 4);
//! ```
#![tactic(auto)]

mod laws;
mod scaling;
mod shares;

pub use laws::{answers_are_exact, one_answer};
pub use scaling::{ScaleFault, scale};
pub use shares::Shares;
