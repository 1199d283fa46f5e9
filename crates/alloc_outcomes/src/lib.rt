//! How a command ends: the causes, what a command may answer, and what a step does to its sink.
//!
//! It knows no command, and no text but by its bytes. A step reads, decides, and writes last; the
//! faults of the layers below become causes by `?`.
//!
//! ```text
//! // A part of a step hands on what a layer answers.
//! fn trees_from(alloc: Global, family: &Family) -> Result<Trees, Cause> {
//!     Ok(Trees::of(alloc, family)?)
//! }
//!
//! // A step: its contract is one record, `Steps`, of the command's own outcome.
//! let trees = trees_from(alloc, problem.family())?;
//! let text = sets_text(alloc, &problem, &trees)?;
//! write_text(&text, out)
//! ```
#![tactic(auto)]

mod cause;
mod convert;
mod write;

pub use cause::Cause;
pub use write::write_text;
