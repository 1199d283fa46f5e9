//! `pick`: the piece of a ticket of a lottery.

ghost use Rattle.std.specs.Prelude.{◌≡◌};
ghost use Rattle.alloc_draws.specs.Pick.{ticket_cause, PickAnswers, WithinOrNot};
ghost use Rattle.alloc_outcomes.specs.Checks.{Checked};
ghost use Rattle.alloc_outcomes.specs.Steps.{Steps};

use crate::picked::picked_text;
use alloc_outcomes::{Cause, write_text};
use alloc_readings::lottery_from;
use device_core::Sink;
use lottery_file::Lottery;
use std::alloc::Global;

// Whether there is such a ticket.
fn check_ticket(lottery: &Lottery, ticket: u128) -> Result<(), Cause>
    ensures { Checked (λ _. tt) (ticket_cause ticket lottery.now.shares.denominator)
        (WithinOrNot ticket lottery.now.shares.denominator) result }
{
    let denominator = lottery.shares.denominator();
    if ticket >= denominator {
        return Err(Cause::TicketOutOfRange {
            ticket,
            denominator,
        });
    }
    Ok(())
}

/// `pick LOTTERY TICKET`: the piece of the ticket.
pub fn step<K: Sink>(alloc: Global, bytes: &[u8], ticket: u128, out: &mut K) -> Result<(), Cause>
    ensures { Steps K.Sink (PickAnswers ticket bytes.now) out.old out.new result }
{
    let lottery = lottery_from(alloc, bytes)?;
    check_ticket(&lottery, ticket)?;
    let text = picked_text(alloc, &lottery, ticket)?;
    write_text(&text, out)
}
