//! Whether a lottery is what it should be, from the files that say so and from the lottery alone. It
//! doesn't matter who made the lottery: nothing here makes one.
//!
//! ```text
//! let problem = problem_from(alloc, prefs, quotas)?;
//! let lottery = lottery_from(alloc, bytes)?;
//! check_lottery(alloc, &problem, &lottery)?;
//! ```
#![tactic(auto)]

pub mod audit;
pub mod audit_guarded;
pub mod audit_matrix;
pub mod envy;
mod laws;
mod names;
mod verdicts;

pub use laws::{solutions_pass, sound_pass, splits_pass};
