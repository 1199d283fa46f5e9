// What is wrong with a text, and how a reader of records stops. Which check finds what isn't known
// here.
ghost use Rattle.std.specs.Prelude.{◌≡◌, true, false, MatchResult};
ghost use Rattle.lottery_file.specs.Kinds.{kind_number};
ghost use Rattle.lottery_file.specs.Reading.{IsRefusalFor};

use quota_sets::NoMemory;
use std::alloc::AllocError;
use table_text::NoMemory as NoRow;

/// What is wrong with a record of a lottery: the first of its checks that fails.
#[derive(Clone, Copy, Debug, PartialEq, Eq)]
pub enum LotteryKind {
    /// A field isn't UTF-8.
    NotUtf8,
    /// The record isn't allowed here.
    WrongOrder,
    /// Too few or too many fields.
    WrongLength,
    /// A field isn't the number that is due.
    BadNumber,
    /// No agent or no column has this name.
    UnknownName,
    /// The weights of the pieces don't add up to the denominator.
    WeightsDontAdd,
    /// The text ends without the record `end`.
    CutOff,
    /// A number or a count is above its limit.
    OverLimit,
    /// The version isn't one that is read.
    UnknownVersion,
    /// A name is unlawful, or stands there twice.
    BadName,
}

impl LotteryKind {
    /// The number by which the kind is told, from 1 on in the order of the variants.
    pub fn number(self) -> u8
        ensures { result ≡ kind_number self }
    {
        match self {
            LotteryKind::NotUtf8 => 1,
            LotteryKind::WrongOrder => 2,
            LotteryKind::WrongLength => 3,
            LotteryKind::BadNumber => 4,
            LotteryKind::UnknownName => 5,
            LotteryKind::WeightsDontAdd => 6,
            LotteryKind::CutOff => 7,
            LotteryKind::OverLimit => 8,
            LotteryKind::UnknownVersion => 9,
            LotteryKind::BadName => 10,
        }
    }
}

/// The first unlawful record of a text, counted from 1 and with records without fields, and the
/// first of its checks that fails. A text that is cut off has its fault at the number of its
/// records plus 1.
#[derive(Clone, Copy, Debug, PartialEq, Eq)]
pub struct LotteryFault {
    pub record_no: u64,
    pub kind: LotteryKind,
}

/// Why a text isn't read as a lottery.
#[derive(Clone, Copy, Debug, PartialEq, Eq)]
pub enum LotteryRefusal {
    /// The text is unlawful.
    Fault(LotteryFault),
    /// Memory is refused.
    NoMemory,
}

impl From<NoRow> for LotteryRefusal {
    ghost use Rattle.std.specs.Prelude.{◌≡◌};
    ghost use Rattle.lottery_file.specs.declared.faults.LotteryRefusal.TheVariants.{NoMemory};

    ghost from_gives = { λ _ refusal. refusal ≡ NoMemory };

    fn from(_: NoRow) -> LotteryRefusal {
        LotteryRefusal::NoMemory
    }
}

/// Why a record isn't taken.
#[derive(Clone, Copy, Debug)]
pub(crate) enum Stop {
    Unlawful(LotteryKind),
    NoMemory,
}

impl From<LotteryKind> for Stop {
    ghost use Rattle.std.specs.Prelude.{◌≡◌};
    ghost use Rattle.lottery_file.specs.declared.faults.Stop.TheVariants.{Unlawful};

    ghost from_gives = { λ kind stop. stop ≡ Unlawful kind };

    fn from(kind: LotteryKind) -> Stop {
        Stop::Unlawful(kind)
    }
}

impl From<AllocError> for Stop {
    ghost use Rattle.std.specs.Prelude.{◌≡◌};
    ghost use Rattle.lottery_file.specs.declared.faults.Stop.TheVariants.{NoMemory};

    ghost from_gives = { λ _ stop. stop ≡ NoMemory };

    fn from(_: AllocError) -> Stop {
        Stop::NoMemory
    }
}

impl From<NoMemory> for Stop {
    ghost use Rattle.std.specs.Prelude.{◌≡◌};
    ghost use Rattle.lottery_file.specs.declared.faults.Stop.TheVariants.{NoMemory};

    ghost from_gives = { λ _ stop. stop ≡ NoMemory };

    fn from(_: NoMemory) -> Stop {
        Stop::NoMemory
    }
}

// What has to hold of a record, and what is wrong with it where that doesn't hold.
pub(crate) fn need(holds: bool, kind: LotteryKind) -> Result<(), LotteryKind>
    ensures { MatchResult result (λ _. holds ≡ true) (λ k. (holds ≡ false) × (k ≡ kind)) }
{
    if holds { Ok(()) } else { Err(kind) }
}

// The refusal of a text whose reading stops at this record.
pub(crate) fn refused(stop: Stop, record_no: u64) -> LotteryRefusal
    ensures { IsRefusalFor stop record_no result }
{
    match stop {
        Stop::Unlawful(kind) => LotteryRefusal::Fault(LotteryFault { record_no, kind }),
        Stop::NoMemory => LotteryRefusal::NoMemory,
    }
}
