//! The faults of records and refusals of texts, and what stops the reading of a record. Nothing here knows what a
//! record says.

ghost use Rattle.std.specs.Prelude.{◌≡◌};
ghost use Rattle.alloc_input.specs.Kinds.{kind_number};
ghost use Rattle.alloc_input.specs.Checks.{IsRefusalFor};

use quota_sets::ProblemFault;
use std::alloc::{AllocError, AllocFailed};
use table_text::NoMemory;

/// What is wrong with a record of preferences, quotas or a matrix: the first of its checks that fails.
#[derive(Clone, Copy, Debug, PartialEq, Eq)]
pub enum InputKind {
    /// A field isn't UTF-8.
    NotUtf8,
    /// A name is unlawful.
    BadName,
    /// The first record with fields isn't the header that is due.
    NoHeader,
    /// An earlier record is of the same agent.
    RepeatedAgent,
    /// A choice is no declared object.
    UnknownObject,
    /// A choice stands there twice.
    RepeatedChoice,
    /// A choice comes after `none`.
    NullNotLast,
    /// No kind of record has this first field.
    UnknownKind,
    /// Too few or too many fields.
    WrongLength,
    /// A field isn't the number that is due.
    BadNumber,
    /// A name is taken.
    RepeatedName,
    /// A name isn't known.
    UnknownName,
    /// `none` stands where only objects may.
    NoneInSet,
    /// A floor above 0, for `solve`.
    FloorInSolve,
    /// A set of side 1, for `solve`.
    SideInSolve,
    /// The floor is above the ceiling.
    FloorAboveCeiling,
    /// A number or a count is above its limit.
    OverLimit,
    /// The text ends without an agent.
    NoAgents,
    /// An agent's quotas aren't one demand of at least 1, for `solve`.
    RowInSolve,
}

impl InputKind {
    /// The number by which the kind is told, from 1 on in the order of the variants.
    pub fn number(self) -> u8
        ensures { result ≡ kind_number self }
    {
        match self {
            InputKind::NotUtf8 => 1,
            InputKind::BadName => 2,
            InputKind::NoHeader => 3,
            InputKind::RepeatedAgent => 4,
            InputKind::UnknownObject => 5,
            InputKind::RepeatedChoice => 6,
            InputKind::NullNotLast => 7,
            InputKind::UnknownKind => 8,
            InputKind::WrongLength => 9,
            InputKind::BadNumber => 10,
            InputKind::RepeatedName => 11,
            InputKind::UnknownName => 12,
            InputKind::NoneInSet => 13,
            InputKind::FloorInSolve => 14,
            InputKind::SideInSolve => 15,
            InputKind::FloorAboveCeiling => 16,
            InputKind::OverLimit => 17,
            InputKind::NoAgents => 18,
            InputKind::RowInSolve => 19,
        }
    }
}

/// The first unlawful record of a text and the first of its checks that fails.
#[derive(Clone, Copy, Debug, PartialEq, Eq)]
pub struct InputFault {
    /// 1 for preferences or a matrix, 2 for quotas.
    pub file: u8,
    /// The number of the record, from 1, records without fields counted; the number of records plus 1 for what is
    /// missing at the end.
    pub record_no: u64,
    pub kind: InputKind,
}

/// Why a text isn't read.
#[derive(Clone, Copy, Debug, PartialEq, Eq)]
pub enum InputRefusal {
    /// The text is unlawful.
    Fault(InputFault),
    /// Memory is refused.
    NoMemory,
}

impl From<InputFault> for InputRefusal {
    ghost use Rattle.std.specs.Prelude.{◌≡◌};
    ghost use Rattle.alloc_input.specs.declared.faults.InputRefusal.TheVariants.{Fault};

    ghost from_gives = { λ fault e. e ≡ Fault fault };

    fn from(fault: InputFault) -> InputRefusal {
        InputRefusal::Fault(fault)
    }
}

impl From<AllocError> for InputRefusal {
    ghost use Rattle.std.specs.Prelude.{◌≡◌};
    ghost use Rattle.alloc_input.specs.declared.faults.InputRefusal.TheVariants.{NoMemory};

    ghost from_gives = { λ _ e. e ≡ NoMemory };

    fn from(_: AllocError) -> InputRefusal {
        InputRefusal::NoMemory
    }
}

impl From<NoMemory> for InputRefusal {
    ghost use Rattle.std.specs.Prelude.{◌≡◌};
    ghost use Rattle.alloc_input.specs.declared.faults.InputRefusal.TheVariants.{NoMemory};

    ghost from_gives = { λ _ e. e ≡ NoMemory };

    fn from(_: NoMemory) -> InputRefusal {
        InputRefusal::NoMemory
    }
}

impl From<ProblemFault> for InputRefusal {
    ghost use Rattle.std.specs.Prelude.{◌≡◌};
    ghost use Rattle.alloc_input.specs.declared.faults.InputRefusal.TheVariants.{NoMemory};

    ghost from_gives = { λ _ e. e ≡ NoMemory };

    fn from(_: ProblemFault) -> InputRefusal {
        InputRefusal::NoMemory
    }
}

/// Why a record isn't taken, where memory is wanted. What wants none answers an `InputKind` alone.
#[derive(Clone, Copy, Debug)]
pub(crate) enum Stop {
    /// The record is unlawful.
    Unlawful(InputKind),
    /// Memory is refused.
    NoMemory,
}

impl From<InputKind> for Stop {
    ghost use Rattle.std.specs.Prelude.{◌≡◌};
    ghost use Rattle.alloc_input.specs.declared.faults.Stop.TheVariants.{Unlawful};

    ghost from_gives = { λ kind e. e ≡ Unlawful kind };

    fn from(kind: InputKind) -> Stop {
        Stop::Unlawful(kind)
    }
}

impl From<AllocError> for Stop {
    ghost use Rattle.std.specs.Prelude.{◌≡◌};
    ghost use Rattle.alloc_input.specs.declared.faults.Stop.TheVariants.{NoMemory};

    ghost from_gives = { λ _ e. e ≡ NoMemory };

    fn from(_: AllocError) -> Stop {
        Stop::NoMemory
    }
}

impl<T: Drop> From<AllocFailed<T>> for Stop {
    ghost use Rattle.std.specs.Prelude.{◌≡◌};
    ghost use Rattle.alloc_input.specs.declared.faults.Stop.TheVariants.{NoMemory};

    ghost from_gives = { λ _ e. e ≡ NoMemory };

    fn from(_: AllocFailed<T>) -> Stop {
        Stop::NoMemory
    }
}

/// The refusal of a file whose reading stops at this record.
pub(crate) fn refused(stop: Stop, file: u8, record_no: u64) -> InputRefusal
    ensures { IsRefusalFor stop file record_no result }
{
    match stop {
        Stop::Unlawful(kind) => InputRefusal::Fault(InputFault {
            file,
            record_no,
            kind,
        }),
        Stop::NoMemory => InputRefusal::NoMemory,
    }
}
