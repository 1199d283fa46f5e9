//! A seed that several parties make together. Each first commits to a contribution of 32 bytes,
//! and all reveal once all have committed. What the seed is for isn't known here.
//!
//! ```text
//! let contribution = [7; 32];
//! let committed = commitment("Ada", contribution);
//!
//! // The text that the parties publish, with digits in the place of `..`:
//! let pact = read_pact(alloc, b"pact,1\ncommit,Ada,..\nreveal,Ada,..\n")?;
//! let seed = joint_seed(&pact);
//! ```
#![tactic(auto)]

ghost use Rattle.std.specs.Prelude.{IfErr, IfOk};
ghost use Rattle.seed_pact.specs.Pacts.{pact_value, TextReadsAs, RefusedFor};

mod entries;
mod faults;
mod laws;
mod reading;
mod records;
mod seeds;
mod words;

pub use faults::{PactFault, PactKind, PactRefusal};
pub use laws::{commitments_are_kept, first_fault, order_of_reveals, text_reads_once};
use quota_sets::Names;
use reading::read_records;
pub use seeds::{commitment, joint_seed};
use std::alloc::Global;
use table_text::records;

/// A pact as its text says it.
#[derive(Debug, Drop)]
pub struct Pact {
    /// The names, in the order of their commitments.
    pub names: Names,
    /// What each of them has revealed.
    pub contributions: Vec<[u8; 32]>,
}

/// Reads a pact of version 1.
///
/// `Fault` is the first unlawful record of the text with the first of its checks that fails, or
/// `Missing` at the number of records plus 1 where all are lawful and somebody hasn't revealed, or
/// nobody has committed. `NoMemory` can come at any text.
pub fn read_pact(alloc: Global, bytes: &[u8]) -> Result<Pact, PactRefusal>
    ensures value { IfOk result (λ p. TextReadsAs bytes.now (pact_value p)) }
    ensures fault { IfErr result (RefusedFor bytes.now) }
{
    let rows = records(alloc, bytes)?;
    read_records(alloc, &rows)
}

#[cfg(test)]
mod tests;
