// What is wrong with a text, and how a reader of records stops. Which check finds what isn't known
// here.
ghost use Rattle.std.specs.Prelude.{◌≡◌, true, false, MatchResult};
ghost use Rattle.seed_pact.specs.Kinds.{kind_number};
ghost use Rattle.seed_pact.specs.Reading.{IsRefusalFor};

use quota_sets::NoMemory;
use std::alloc::AllocError;
use table_text::NoMemory as NoRow;

/// What is wrong with a record of a pact: the first of its checks that fails.
#[derive(Clone, Copy, Debug, PartialEq, Eq)]
pub enum PactKind {
    /// A field isn't UTF-8.
    NotUtf8,
    /// The record isn't allowed here.
    WrongOrder,
    /// Too few or too many fields.
    WrongLength,
    /// A name is unlawful.
    BadName,
    /// A name has a commitment already.
    RepeatedName,
    /// A field isn't 64 hex digits.
    BadHex,
    /// No commitment has this name.
    UnknownName,
    /// A name has revealed already.
    RepeatedReveal,
    /// The commitment isn't that of the name and the contribution.
    Mismatch,
    /// The text ends before every name has revealed, or without a commitment.
    Missing,
    /// There are more commitments than are allowed.
    OverLimit,
    /// The version isn't one that is read.
    UnknownVersion,
}

impl PactKind {
    /// The number by which the kind is told, from 1 on in the order of the variants.
    pub fn number(self) -> u8
        ensures { result ≡ kind_number self }
    {
        match self {
            PactKind::NotUtf8 => 1,
            PactKind::WrongOrder => 2,
            PactKind::WrongLength => 3,
            PactKind::BadName => 4,
            PactKind::RepeatedName => 5,
            PactKind::BadHex => 6,
            PactKind::UnknownName => 7,
            PactKind::RepeatedReveal => 8,
            PactKind::Mismatch => 9,
            PactKind::Missing => 10,
            PactKind::OverLimit => 11,
            PactKind::UnknownVersion => 12,
        }
    }
}

/// The first unlawful record of a text, counted from 1 and with records without fields, and the
/// first of its checks that fails. A text that isn't whole has its fault at the number of its
/// records plus 1.
#[derive(Clone, Copy, Debug, PartialEq, Eq)]
pub struct PactFault {
    pub record_no: u64,
    pub kind: PactKind,
}

/// Why a text isn't read as a pact.
#[derive(Clone, Copy, Debug, PartialEq, Eq)]
pub enum PactRefusal {
    /// The text is unlawful.
    Fault(PactFault),
    /// Memory is refused.
    NoMemory,
}

impl From<NoRow> for PactRefusal {
    ghost use Rattle.std.specs.Prelude.{◌≡◌};
    ghost use Rattle.seed_pact.specs.declared.faults.PactRefusal.TheVariants.{NoMemory};

    ghost from_gives = { λ _ refusal. refusal ≡ NoMemory };

    fn from(_: NoRow) -> PactRefusal {
        PactRefusal::NoMemory
    }
}

/// Why a record isn't taken.
#[derive(Clone, Copy, Debug)]
pub(crate) enum Stop {
    Unlawful(PactKind),
    NoMemory,
}

impl From<PactKind> for Stop {
    ghost use Rattle.std.specs.Prelude.{◌≡◌};
    ghost use Rattle.seed_pact.specs.declared.faults.Stop.TheVariants.{Unlawful};

    ghost from_gives = { λ kind stop. stop ≡ Unlawful kind };

    fn from(kind: PactKind) -> Stop {
        Stop::Unlawful(kind)
    }
}

impl From<AllocError> for Stop {
    ghost use Rattle.std.specs.Prelude.{◌≡◌};
    ghost use Rattle.seed_pact.specs.declared.faults.Stop.TheVariants.{NoMemory};

    ghost from_gives = { λ _ stop. stop ≡ NoMemory };

    fn from(_: AllocError) -> Stop {
        Stop::NoMemory
    }
}

impl From<NoMemory> for Stop {
    ghost use Rattle.std.specs.Prelude.{◌≡◌};
    ghost use Rattle.seed_pact.specs.declared.faults.Stop.TheVariants.{NoMemory};

    ghost from_gives = { λ _ stop. stop ≡ NoMemory };

    fn from(_: NoMemory) -> Stop {
        Stop::NoMemory
    }
}

// What has to hold of a record, and what is wrong with it where that doesn't hold.
pub(crate) fn need(holds: bool, kind: PactKind) -> Result<(), PactKind>
    ensures { MatchResult result (λ _. holds ≡ true) (λ k. (holds ≡ false) × (k ≡ kind)) }
{
    if holds { Ok(()) } else { Err(kind) }
}

// The refusal of a text whose reading stops at this record.
pub(crate) fn refused(stop: Stop, record_no: u64) -> PactRefusal
    ensures { IsRefusalFor stop record_no result }
{
    match stop {
        Stop::Unlawful(kind) => PactRefusal::Fault(PactFault { record_no, kind }),
        Stop::NoMemory => PactRefusal::NoMemory,
    }
}
