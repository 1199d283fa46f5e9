//! Laws on the answers of `scale`: each is the contract of a function that does nothing.

ghost use Rattle.scaled_matrix.specs.Scaling.{OneAnswer, AnswersAreExact};

/// Shares have one answer at most besides `NoMemory`.
pub fn one_answer()
    ensures { OneAnswer }
{}

/// `TooFine` comes exactly where the least common denominator passes 2^116, `OverTotal` exactly where it does not and
/// all entries together pass 1,000, and `Ok` at all other shares; but for `NoMemory`, which may come at any.
pub fn answers_are_exact()
    ensures { AnswersAreExact }
{}
