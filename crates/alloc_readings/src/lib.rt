//! What several families of commands read: each door takes bytes, or a value of a layer below, and
//! hands on what that layer answers, with its fault as a cause.
//!
//! For each there is a relation that says what it may answer (`specs/`), and a law that this is one
//! answer (`proofs/`). No door writes, and none knows which command asks.
//!
//! ```text
//! let shares = shares_from(alloc, matrix)?;
//! let x = scaled_from(alloc, &shares)?;
//! let family = family_from(alloc, &shares, quotas)?;
//! let trees = trees_from(alloc, &family)?;
//! check_quotas(&x, &family)?;
//!
//! let problem = problem_from(alloc, prefs, quotas)?;
//! let trees = trees_from(alloc, problem.family())?;
//! let eaten = eaten_from(alloc, &problem, &trees)?;
//! ```
#![tactic(auto)]

mod eaten;
mod family;
mod guarded;
mod lottery;
mod problem;
mod quotas;
mod shares;
mod trees;

pub use eaten::eaten_from;
pub use family::family_from;
pub use guarded::guarded_from;
pub use lottery::lottery_from;
pub use problem::problem_from;
pub use quotas::check_quotas;
pub use shares::{scaled_from, shares_from};
pub use trees::trees_from;
