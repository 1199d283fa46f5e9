//! Laws on the summary: each is the contract of a function that does nothing.

ghost use Rattle.alloc_report.specs.Laws.{ExpectedOfColumns, GreatestAndLeast};

/// What is expected names each column once, in rising byte order and with the sum of its units, and
/// nothing else, where no two columns have one name.
pub fn expected_of_columns()
    ensures { ExpectedOfColumns }
{}

/// The greatest and the least of some weights are among them, and none is greater or less.
pub fn greatest_and_least()
    ensures { GreatestAndLeast }
{}
