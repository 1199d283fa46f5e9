// Every run ends here: the flush of out, the line on err, and the status.
ghost use Rattle.std.specs.Prelude.{◌≡◌};
ghost use Rattle.alloc_cli.specs.Finish.{status_of, Closes, LineOn, Tells};
ghost use Rattle.alloc_cli.specs.Lines.{line_of};

use crate::lines::write_line;
use alloc_outcomes::Cause;
use device_core::Sink;

/// The end of a run: its cause, and the exit status of that cause.
#[derive(Clone, Copy, Debug, PartialEq, Eq)]
pub struct Ended {
    pub status: u8,
    pub cause: Cause,
}

// The exit status of a program that ends so.
fn status(cause: Cause) -> u8
    ensures { result ≡ status_of cause }
{
    match cause {
        Cause::Done => 0,
        Cause::AuditFailed(_) => 1,
        Cause::Usage => 2,
        Cause::TooLong { .. }
        | Cause::Input(_)
        | Cause::Lottery(_)
        | Cause::Pact(_)
        | Cause::Crossing { .. }
        | Cause::NoSides
        | Cause::Infeasible { .. }
        | Cause::OverTotal { .. }
        | Cause::OverGuard { .. }
        | Cause::TicketOutOfRange { .. } => 3,
        Cause::ReadFault { .. } | Cause::WriteFault => 4,
        Cause::TooFine { .. } | Cause::NoTicket => 5,
        Cause::NoMemory => 6,
    }
}

// The line and a flush, of which a failure changes nothing.
fn put_line<E: Sink>(cause: Cause, err: &mut E)
    ensures { LineOn E.Sink (line_of cause) err.old err.new }
{
    if write_line(cause, err).is_ok() {
        let _ = err.flush();
    }
}

// What err gets.
#[tactic(auto, using(crate::proofs::FinishLemmas::tells_from_line))]
fn tell<E: Sink>(cause: Cause, err: &mut E)
    ensures { Tells E.Sink err.old err.new cause }
{
    match cause {
        Cause::Done => {}
        _ => put_line(cause, err),
    }
}

// Flushes out after its last byte.
fn close<K: Sink>(written: Result<(), Cause>, out: &mut K) -> Cause
    ensures { Closes K.Sink out.old out.new written result }
{
    match written {
        Err(cause) => cause,
        Ok(()) => match out.flush() {
            Ok(()) => Cause::Done,
            Err(_) => Cause::WriteFault,
        },
    }
}

/// Ends a run.
pub fn finish<K: Sink, E: Sink>(written: Result<(), Cause>, out: &mut K, err: &mut E) -> Ended
    ensures closed { Closes K.Sink out.old out.new written result.cause }
    ensures status { result.status ≡ status_of result.cause }
    ensures err { Tells E.Sink err.old err.new result.cause }
{
    let cause = close(written, out);
    tell(cause, err);
    Ended {
        status: status(cause),
        cause,
    }
}
