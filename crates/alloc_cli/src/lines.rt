// The line of a cause.
ghost use Rattle.std.specs.Prelude.{◌≡◌, ◌∷◌, [], codes};
ghost use Rattle.alloc_cli.specs.Lines.{joined, line_of};
ghost use Rattle.alloc_cli.specs.Parts.{part_text, Writes};

use crate::fault_line::write_fields;
use crate::parts::Part::{Text, U8, U32, U64, U128};
use crate::parts::{Part, write_parts};
use alloc_input::InputFault;
use alloc_outcomes::Cause;
use cert_check::Fault;
use device_core::{Sink, SinkFault};
use lottery_file::LotteryFault;
use seed_pact::PactFault;

// The number of a failed check, and the fields of the fault.
fn write_fault<E: Sink>(fault: Fault, err: &mut E) -> Result<(), SinkFault>
    ensures { Writes E.Sink (line_of (Cause.AuditFailed fault)) err.old err.new result }
{
    let number = fault.number();
    write_parts(&[Text("audit failed: "), U8(number)], err)?;
    write_fields(fault, err)?;
    write_parts(&[Text("\n")], err)
}

// The file, the record and the kind of a fault of preferences, quotas or a matrix.
fn write_input<E: Sink>(fault: InputFault, err: &mut E) -> Result<(), SinkFault>
    ensures { Writes E.Sink (line_of (Cause.Input fault)) err.old err.new result }
{
    let kind = fault.kind.number();
    write_parts(
        &[
            Text("input: file "),
            U8(fault.file),
            Text(" record "),
            U64(fault.record_no),
            Text(" kind "),
            U8(kind),
            Text("\n"),
        ],
        err,
    )
}

// The record and the kind of a fault of a lottery.
fn write_lottery<E: Sink>(fault: LotteryFault, err: &mut E) -> Result<(), SinkFault>
    ensures { Writes E.Sink (line_of (Cause.Lottery fault)) err.old err.new result }
{
    let kind = fault.kind.number();
    write_parts(
        &[
            Text("lottery: record "),
            U64(fault.record_no),
            Text(" kind "),
            U8(kind),
            Text("\n"),
        ],
        err,
    )
}

// The record and the kind of a fault of a pact.
fn write_pact<E: Sink>(fault: PactFault, err: &mut E) -> Result<(), SinkFault>
    ensures { Writes E.Sink (line_of (Cause.Pact fault)) err.old err.new result }
{
    let kind = fault.kind.number();
    write_parts(
        &[
            Text("pact: record "),
            U64(fault.record_no),
            Text(" kind "),
            U8(kind),
            Text("\n"),
        ],
        err,
    )
}

// A line of a text and a number.
fn write_one<E: Sink>(lead: &'static str, number: Part, err: &mut E) -> Result<(), SinkFault>
    ensures { Writes E.Sink (joined (lead.now ∷ part_text number ∷ codes "\n" ∷ []))
        err.old err.new result }
{
    write_parts(&[Text(lead), number, Text("\n")], err)
}

// A line of two texts, each before a number.
fn write_two<E: Sink>(
    lead: &'static str,
    first: Part,
    between: &'static str,
    second: Part,
    err: &mut E,
) -> Result<(), SinkFault>
    ensures { Writes E.Sink
        (joined (lead.now ∷ part_text first ∷ between.now ∷ part_text second ∷ codes "\n" ∷ []))
        err.old err.new result }
{
    write_parts(&[Text(lead), first, Text(between), second, Text("\n")], err)
}

/// Writes the line of a cause, and nothing for `Done`. A refusal ends it there.
pub fn write_line<E: Sink>(cause: Cause, err: &mut E) -> Result<(), SinkFault>
    ensures { Writes E.Sink (line_of cause) err.old err.new result }
{
    match cause {
        Cause::Done => Ok(()),
        Cause::AuditFailed(fault) => write_fault(fault, err),
        Cause::Usage => write_parts(&[Text("usage\n")], err),
        Cause::ReadFault { file } => write_one("read: file ", U8(file), err),
        Cause::TooLong { file } => write_one("too long: file ", U8(file), err),
        Cause::Input(fault) => write_input(fault, err),
        Cause::Lottery(fault) => write_lottery(fault, err),
        Cause::Pact(fault) => write_pact(fault, err),
        Cause::Crossing { first, second } => {
            write_two("crossing: sets ", U32(first), " ", U32(second), err)
        }
        Cause::NoSides => write_parts(&[Text("no sides\n")], err),
        Cause::Infeasible { set, sum } => {
            write_two("infeasible: set ", U32(set), " sum ", U128(sum), err)
        }
        Cause::TooFine { denominator } => write_one("too fine: ", U128(denominator), err),
        Cause::OverGuard { sets, cells } => {
            write_two("over guard: sets ", U64(sets), " cells ", U64(cells), err)
        }
        Cause::OverTotal { agent, column } => {
            write_two(
                "over total: agent ",
                U32(agent),
                " column ",
                U32(column),
                err,
            )
        }
        Cause::TicketOutOfRange {
            ticket,
            denominator,
        } => write_two("ticket: ", U128(ticket), " of ", U128(denominator), err),
        Cause::NoTicket => write_parts(&[Text("no ticket\n")], err),
        Cause::WriteFault => write_parts(&[Text("write\n")], err),
        Cause::NoMemory => write_parts(&[Text("memory\n")], err),
    }
}
