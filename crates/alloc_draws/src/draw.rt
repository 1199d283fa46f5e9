//! `draw`: the piece of the ticket that a seed names.

ghost use Rattle.std.specs.Prelude.{◌≡◌, ◌<◌, IfOk};
ghost use Rattle.alloc_draws.specs.Draw.{no_ticket_cause, DrawAnswers, NamesOrNot};
ghost use Rattle.alloc_outcomes.specs.Checks.{Checked};
ghost use Rattle.alloc_outcomes.specs.Steps.{Steps};

use crate::picked::picked_text;
use alloc_outcomes::{Cause, write_text};
use alloc_readings::lottery_from;
use device_core::Sink;
use lottery_file::Lottery;
use seed_draw::ticket;
use std::alloc::Global;

// The ticket that the seed names.
pub(crate) fn ticket_from(lottery: &Lottery, seed: [u8; 32]) -> Result<u128, Cause>
    ensures named { Checked (λ ticket. ticket) no_ticket_cause
        (NamesOrNot seed lottery.now.shares.denominator) result }
    ensures within { IfOk result (λ ticket. ticket < lottery.now.shares.denominator) }
{
    ticket(seed, lottery.shares.denominator()).ok_or(Cause::NoTicket)
}

/// `draw LOTTERY SEED`: the piece of the ticket that the seed names.
pub fn step<K: Sink>(alloc: Global, bytes: &[u8], seed: [u8; 32], out: &mut K) -> Result<(), Cause>
    ensures { Steps K.Sink (DrawAnswers seed bytes.now) out.old out.new result }
{
    let lottery = lottery_from(alloc, bytes)?;
    let ticket = ticket_from(&lottery, seed)?;
    let text = picked_text(alloc, &lottery, ticket)?;
    write_text(&text, out)
}
