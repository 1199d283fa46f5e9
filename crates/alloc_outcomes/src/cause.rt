// Why a run ended. What its status and its line are is known above.

use alloc_input::InputFault;
use cert_check::Fault;
use lottery_file::LotteryFault;
use seed_pact::PactFault;

/// Why a run ended. Files, records, sets, agents and columns count from 1.
#[derive(Clone, Copy, Debug, PartialEq, Eq)]
pub enum Cause {
    /// A whole text was written and flushed.
    Done,
    /// A check of an audit failed.
    AuditFailed(Fault),
    /// The words are in no form.
    Usage,
    /// A file could not be loaded.
    ReadFault { file: u8 },
    /// A file has more than 67,108,864 bytes.
    TooLong { file: u8 },
    /// Preferences, a matrix or quotas are unlawful.
    Input(InputFault),
    /// A lottery is unlawful.
    Lottery(LotteryFault),
    /// A pact is unlawful.
    Pact(PactFault),
    /// Two sets of one side cross.
    Crossing { first: u32, second: u32 },
    /// Sets cross in an odd ring, so that no choice of sides keeps them apart.
    NoSides,
    /// The sum of a set, in units of the denominator, lies outside its quotas.
    Infeasible { set: u32, sum: u128 },
    /// A denominator is above 2^116.
    TooFine { denominator: u128 },
    /// The guarded family would have more than 2,000 sets, or more than 1,201,000 cells in all.
    OverGuard { sets: u64, cells: u64 },
    /// The entries of a matrix up to this one add up to more than 1,000.
    OverTotal { agent: u32, column: u32 },
    /// A ticket is not below the denominator.
    TicketOutOfRange { ticket: u128, denominator: u128 },
    /// A seed names no ticket.
    NoTicket,
    /// The output could not be written or flushed.
    WriteFault,
    /// Memory was refused.
    NoMemory,
}
