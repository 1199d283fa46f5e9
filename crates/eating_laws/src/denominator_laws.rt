//! Laws on the denominators of tables in lowest terms.

ghost use Rattle.eating_laws.specs.Denominators.{BoundOnDenominators, NoFirstTooFine, OneFirstTooFine};

/// Where an eating table has a denominator up to 2^116, no table up to a moment is a first one that is too fine.
pub fn no_first_too_fine()
    ensures { NoFirstTooFine }
{}

/// A market has one first table that is too fine, at most: of two the denominators, the moments and the tables are equal.
pub fn one_first_too_fine()
    ensures { OneFirstTooFine }
{}

/// In lowest terms the denominator of an eating table is at most `n ^ R`, with `n` the sum of demands and `R` the number of
/// distinct moments before the end. Of a table up to a moment the same holds with any list of its moments up to there.
pub fn bound_on_denominators()
    ensures { BoundOnDenominators }
{}
