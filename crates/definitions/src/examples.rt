//! Small cases that were worked by hand, as laws: each is the contract of a function that does nothing.

ghost use Rattle.definitions.specs.Examples.{TiedMoment, SetFullBeforeItsColumn, EqualAndEmptySets, DemandsOfTwo, UneatenPlace, SetOfFirstPlaces, MixedSpellings, InfeasibleRow, NumbersAndNames, RingOfThree, SplitOfThree, TicketsOfZeros, TooFineAtOnce, OddsOfThree, OppositeWishes, SharesSplit, SharesByValue, GuardedPlaces, TicketsOfCells, ListsForAll};

/// Four agents, of whose objects two are full at one moment and two at the end.
pub fn tied_moment()
    ensures { TiedMoment }
{}

/// A set that is full before the column that its cells stand in.
pub fn set_full_before_its_column()
    ensures { SetFullBeforeItsColumn }
{}

/// The parents of equal and of empty sets.
pub fn equal_and_empty_sets()
    ensures { EqualAndEmptySets }
{}

/// Two agents of demand two, of whom one envies the other.
pub fn demands_of_two()
    ensures { DemandsOfTwo }
{}

/// A lottery that solves its problem, with a place that isn't eaten.
pub fn uneaten_place()
    ensures { UneatenPlace }
{}

/// The set of an agent's first places, with its quotas.
pub fn set_of_first_places()
    ensures { SetOfFirstPlaces }
{}

/// Shares in several spellings, and two lists of pieces that decompose them.
pub fn mixed_spellings()
    ensures { MixedSpellings }
{}

/// A row that is above its ceiling.
pub fn infeasible_row()
    ensures { InfeasibleRow }
{}

/// Texts of numbers and names.
pub fn numbers_and_names()
    ensures { NumbersAndNames }
{}

/// Three sets that cross each other.
pub fn ring_of_three()
    ensures { RingOfThree }
{}

/// Three sets of which two cross.
pub fn split_of_three()
    ensures { SplitOfThree }
{}

/// Tickets of a seed of zeros, and the pieces that tickets name.
pub fn tickets_of_zeros()
    ensures { TicketsOfZeros }
{}

/// A table that needs a denominator just above the limit.
pub fn too_fine_at_once()
    ensures { TooFineAtOnce }
{}

/// Odds that are a random assignment, and odds that aren't.
pub fn odds_of_three()
    ensures { OddsOfThree }
{}

/// Two agents who each get what they want most, against one half of everything for both.
pub fn opposite_wishes()
    ensures { OppositeWishes }
{}

/// A lottery that splits given shares.
pub fn shares_split()
    ensures { SharesSplit }
{}

/// A share that isn't in lowest terms.
pub fn shares_by_value()
    ensures { SharesByValue }
{}

/// The sets of all agents' first places, after a family's own.
pub fn guarded_places()
    ensures { GuardedPlaces }
{}

/// How many tickets give a cell.
pub fn tickets_of_cells()
    ensures { TicketsOfCells }
{}

/// A lottery with prices, with and without its lists.
pub fn lists_for_all()
    ensures { ListsForAll }
{}
