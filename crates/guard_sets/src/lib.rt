//! The utility guard (Budish, Che, Kojima and Milgrom 2013): sets by which no two pieces of a lottery differ much for any
//! one agent.
//!
//! The guarded family has the problem's sets and then, for each agent and each k, the cells of the agent's first k places
//! as a set of side 1, with its own share rounded down and up as quotas. Where pieces round the shares at each of these
//! sets too, the sums of number times count in any two pieces differ, for each agent and any whole numbers that fall
//! strictly along its list, by at most the first minus the last number.
//!
//! ```rust
//! use guard_sets::{GuardFault, guarded, guarded_pieces};
//!
//! match guarded(alloc, &problem, eaten.shares()) {
//!     Ok(family) => println!(rt; "{} sets", family.len())?,
//!     Err(GuardFault::OverGuard { sets, cells }) => println!(rt; "{sets} sets with {cells} cells")?,
//!     Err(GuardFault::NoMemory) => {}
//! }
//! let pieces = guarded_pieces(alloc, &problem, eaten.shares())?;
//! ```
#![tactic(auto)]

mod family;
mod fault;
mod front;
mod pieces;
mod size;

pub use family::guarded;
pub use fault::GuardFault;
pub use pieces::guarded_pieces;
