//! Laws on what the agents have in the end.

ghost use Rattle.eating_laws.specs.Shares.{EatenStays, EatingIsAnAssignment, RowsAddUp, SumsAreEaten};

/// An agent's shares of all columns add up to its demand, where no limit holds the last column of its list.
pub fn rows_add_up()
    ensures { RowsAddUp }
{}

/// The shares of the cells of a set add up to what is eaten of the set by the end.
pub fn sums_are_eaten()
    ensures { SumsAreEaten }
{}

/// A limit that is full stays full: in an eating table none is above its ceiling in the end, and one that is full before
/// the end has all of its ceiling.
pub fn eaten_stays()
    ensures { EatenStays }
{}

/// The assignment of an eating table of a lawful problem is a random assignment of it: each row adds up to its agent's
/// demand, nothing stands off the lists, and no limit is above its ceiling.
pub fn eating_is_an_assignment()
    ensures { EatingIsAnAssignment }
{}
