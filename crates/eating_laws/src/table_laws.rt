//! Laws on eating tables alone.

ghost use Rattle.eating_laws.specs.Tables.{FinerMoments, TableIsUnique};

/// A market has one eating table: of two the numbers are proportional, and in lowest terms the two are equal.
pub fn table_is_unique()
    ensures { TableIsUnique }
{}

/// What is asked of a table at whole moments holds at the moments between, however fine.
pub fn finer_moments()
    ensures { FinerMoments }
{}
