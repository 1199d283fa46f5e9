//! `pact-draw`: the seed of a pact, and the piece of the ticket that it names.

ghost use Rattle.std.specs.Prelude.{◌≡◌, ◌++◌, ◌<◌, IfOk, OnOk};
ghost use Rattle.alloc_draws.specs.PactDraw.{seed_text, PactDrawAnswers, PactReads};
ghost use Rattle.alloc_draws.specs.Picked.{picked_text};
ghost use Rattle.alloc_outcomes.specs.Causes.{pact_cause};
ghost use Rattle.alloc_outcomes.specs.Checks.{Checked};
ghost use Rattle.alloc_outcomes.specs.Steps.{Steps};
ghost use Rattle.lottery_file.specs.Lotteries.{lottery_value, IsLawfulLottery};
ghost use Rattle.seed_pact.specs.Pacts.{pact_value};

use crate::draw::ticket_from;
use crate::hex_digits::hex_digits;
use crate::picked::picked_text;
use alloc_outcomes::{Cause, write_text};
use alloc_readings::lottery_from;
use device_core::Sink;
use lottery_file::Lottery;
use seed_pact::{Pact, joint_seed, read_pact};
use std::alloc::Global;
use table_text::{NoMemory, row_bytes, row_of_words};

// The pact that a file reads as.
fn pact_from(alloc: Global, bytes: &[u8]) -> Result<Pact, Cause>
    ensures { Checked pact_value pact_cause (PactReads bytes.now) result }
{
    Ok(read_pact(alloc, bytes)?)
}

// Appends the record of a seed.
fn put_seed(alloc: Global, seed: [u8; 32], into: &mut Vec<u8>) -> Result<(), NoMemory>
    ensures { OnOk result (into.new.items ≡ into.old.items ++ seed_text seed) }
{
    let digits = hex_digits(seed);
    let row = row_of_words(alloc, b"seed", &digits)?;
    row_bytes(&row, into)
}

// The text of a seed, of its ticket and of the piece.
fn drawn_text(
    alloc: Global,
    lottery: &Lottery,
    seed: [u8; 32],
    ticket: u128,
) -> Result<Vec<u8>, NoMemory>
    requires lawful { IsLawfulLottery (lottery_value lottery.now) }
    requires within { ticket < lottery.now.shares.denominator }
    ensures { IfOk result (λ text. text.items
        ≡ seed_text seed ++ picked_text (lottery_value lottery.now) ticket) }
{
    let mut text = Vec::new(alloc);
    put_seed(alloc, seed, &mut text)?;
    let picked = picked_text(alloc, lottery, ticket)?;
    text.extend_from_slice(&picked)?;
    Ok(text)
}

/// `pact-draw LOTTERY PACT`: the seed of the pact, and the piece of the ticket that it names.
pub fn step<K: Sink>(alloc: Global, first: &[u8], second: &[u8], out: &mut K) -> Result<(), Cause>
    ensures { Steps K.Sink (PactDrawAnswers first.now second.now) out.old out.new result }
{
    let lottery = lottery_from(alloc, first)?;
    let pact = pact_from(alloc, second)?;
    let seed = joint_seed(&pact);
    let ticket = ticket_from(&lottery, seed)?;
    let text = drawn_text(alloc, &lottery, seed, ticket)?;
    write_text(&text, out)
}
