// Faults that the checkers find, with their numbers.
ghost use Rattle.std.specs.Prelude.{◌≡◌};
ghost use Rattle.cert_check.specs.Faults.{fault_number};

/// The first failed check of an audit, in the order in which the checks run. Agents, columns, places on a list, sets and
/// pieces count from 1, and sums are in units of the denominator.
#[derive(Clone, Copy, Debug, PartialEq, Eq)]
pub enum Fault {
    /// 1: the names of agents first differ at this place, or one list ends there.
    AgentsDiffer {
        place: u32,
    },
    /// 2: the names of columns first differ at this place, or one list ends there.
    ColumnsDiffer {
        place: u32,
    },
    /// 3: the number of prices isn't the number of stated sets.
    SetsDiffer {
        due: u32,
        found: u32,
    },
    /// 4: the lists of this agent first differ at this place, or one of the two ends there.
    ListDiffers {
        agent: u32,
        place: u32,
    },
    /// 5: the denominators differ.
    DenominatorDiffers {
        due: u128,
        found: u128,
    },
    /// 6: the units of this cell differ.
    EntryDiffers {
        agent: u32,
        column: u32,
        due: u128,
        found: u128,
    },
    /// 7: the units of this agent's row don't add up to its demand times the denominator.
    RowSum {
        agent: u32,
        sum: u128,
    },
    /// 8: there are units off this agent's list.
    OffList {
        agent: u32,
        column: u32,
        units: u128,
    },
    /// 9: the sum of this set is above its ceiling times the denominator.
    OverCeiling {
        set: u32,
        sum: u128,
    },
    /// 18: a capped cell has more units than the denominator.
    OverCap {
        agent: u32,
        column: u32,
        units: u128,
    },
    /// 10: the worth at this place isn't above that of the next.
    WorthNotFalling {
        agent: u32,
        place: u32,
        worth: i64,
        next: i64,
    },
    /// 11: the price of this set is above 0, and its sum below its ceiling times the denominator.
    PriceNotFull {
        set: u32,
        price: u64,
        sum: u128,
    },
    /// 12: the place has units, and `other` is the first place whose worth minus price is greater.
    NotBest {
        agent: u32,
        place: u32,
        gain: i64,
        other: u32,
        better: i64,
    },
    /// 13: there are more pieces than one more than cells and sets that are no whole multiples.
    TooManyPieces {
        pieces: u64,
        bound: u64,
    },
    /// 14: this piece's count isn't the units of the cell over the denominator, rounded.
    CellNotRounded {
        piece: u64,
        agent: u32,
        column: u32,
        count: u32,
    },
    /// 15: this piece's sum over the set isn't the set's units over the denominator, rounded.
    SetNotRounded {
        piece: u64,
        set: u32,
        sum: u64,
    },
    /// 16: two pieces give the same.
    SamePieces {
        first: u64,
        second: u64,
    },
    /// 17: the weighted sum of the pieces isn't the units of this cell.
    CellNotMet {
        agent: u32,
        column: u32,
        given: u128,
        due: u128,
    },
}

impl Fault {
    /// The number of the check. Check 18 runs between 9 and 10.
    pub fn number(self) -> u8
        ensures { result ≡ fault_number self }
    {
        match self {
            Fault::AgentsDiffer { .. } => 1,
            Fault::ColumnsDiffer { .. } => 2,
            Fault::SetsDiffer { .. } => 3,
            Fault::ListDiffers { .. } => 4,
            Fault::DenominatorDiffers { .. } => 5,
            Fault::EntryDiffers { .. } => 6,
            Fault::RowSum { .. } => 7,
            Fault::OffList { .. } => 8,
            Fault::OverCeiling { .. } => 9,
            Fault::OverCap { .. } => 18,
            Fault::WorthNotFalling { .. } => 10,
            Fault::PriceNotFull { .. } => 11,
            Fault::NotBest { .. } => 12,
            Fault::TooManyPieces { .. } => 13,
            Fault::CellNotRounded { .. } => 14,
            Fault::SetNotRounded { .. } => 15,
            Fault::SamePieces { .. } => 16,
            Fault::CellNotMet { .. } => 17,
        }
    }
}
