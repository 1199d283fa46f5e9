//! Laws on whole matrices that round an expected one, on lotteries that are made of them, and on tickets.
//!
//! Each law is the contract of a function without parameters that does nothing: that the function is proved is that the law
//! holds. The statements stand in `specs/`, over the words of the crate `definitions`. Lotteries over whole assignments, and
//! roundings at every set of a bihierarchy: Budish, Che, Kojima and Milgrom 2013. That no two pieces of a lottery are equal,
//! and the bound on their number, are the project's.
#![tactic(auto)]

ghost use Rattle.rounding_laws.specs.Quotas.{RoundingKeepsQuotas, SmallCellsStaySmall};
ghost use Rattle.rounding_laws.specs.Named.{TicketsCountPieces, NamedUnitsAreUnits};
ghost use Rattle.rounding_laws.specs.Remainders.{RemainderRoundsWhole, FractionalCountFalls};
ghost use Rattle.rounding_laws.specs.Peeling.{PeelingStarts, PeelingSteps, PeelingEnds};

/// Where an expected matrix is feasible for a family, a whole matrix that rounds it meets every quota; and where it has at most
/// one whole unit at a cell, so has the whole matrix.
pub fn rounding_keeps_quotas()
    ensures quotas { RoundingKeepsQuotas }
    ensures cells { SmallCellsStaySmall }
{}

/// As many tickets as its weight name a piece; so where pieces decompose a matrix, the named units of a cell are its units.
pub fn tickets_count_pieces()
    ensures weights { TicketsCountPieces }
    ensures units { NamedUnitsAreUnits }
{}

/// Where a whole matrix that rounds an expected one is taken off with the greatest weight that each cell and set allows, and
/// weight is left: what rounds the remainder over the weight left rounds the expected matrix, and is another whole matrix.
pub fn remainder_rounds_whole()
    ensures { RemainderRoundsWhole }
{}

/// Where such a piece is taken off and weight is left, fewer cells and sets have a sum that is no multiple of the weight left than
/// had one that is no multiple of the denominator before.
pub fn fractional_count_falls()
    ensures { FractionalCountFalls }
{}

/// A list without pieces, with all of a matrix left, is peeled off the matrix.
pub fn peeling_starts()
    ensures { PeelingStarts }
{}

/// Where a list of pieces is peeled off a matrix, and one more step takes off a piece with its weight, the list with that piece
/// at its end is peeled off the matrix.
pub fn peeling_steps()
    ensures { PeelingSteps }
{}

/// A list of pieces that is peeled off a matrix, with no weight left and 0 at each cell, decomposes the matrix.
pub fn peeling_ends()
    ensures { PeelingEnds }
{}
