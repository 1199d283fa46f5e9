//! `pact-commit`: the record with which a party commits to its contribution.

ghost use Rattle.std.specs.Prelude.{◌≡◌, IfOk};
ghost use Rattle.alloc_draws.specs.PactCommit.{commit_text, PactCommitAnswers};
ghost use Rattle.alloc_outcomes.specs.Steps.{Steps};

use crate::hex_digits::hex_digits;
use alloc_outcomes::{Cause, write_text};
use device_core::Sink;
use seed_pact::commitment;
use std::alloc::Global;
use table_text::{NoMemory, row_bytes, row_of_words};

// The text of the record.
fn commit_text(alloc: Global, name: &str, contribution: [u8; 32]) -> Result<Vec<u8>, NoMemory>
    ensures { IfOk result (λ text. text.items ≡ commit_text name.now contribution) }
{
    let digits = hex_digits(commitment(name, contribution));
    let mut row = row_of_words(alloc, b"commit", name.as_bytes())?;
    row.push(&digits)?;
    let mut text = Vec::new(alloc);
    row_bytes(&row, &mut text)?;
    Ok(text)
}

/// `pact-commit NAME CONTRIBUTION`: the record of the commitment.
pub fn step<K: Sink>(
    alloc: Global,
    name: &str,
    contribution: [u8; 32],
    out: &mut K,
) -> Result<(), Cause>
    ensures { Steps K.Sink (PactCommitAnswers name.now contribution) out.old out.new result }
{
    let text = commit_text(alloc, name, contribution)?;
    write_text(&text, out)
}
