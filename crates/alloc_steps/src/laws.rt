//! Laws on the lotteries that are written here: each is the contract of a function that does
//! nothing.

ghost use Rattle.alloc_steps.specs.ReadsBack.{SolutionsReadBack};
ghost use Rattle.alloc_steps.specs.Solutions.{FewMomentsFit, OneSolution};
ghost use Rattle.alloc_steps.specs.SolvesWell.{SolvesAreWell};

/// Where a lottery solves a problem, each piece keeps every ceiling and gives each agent exactly its
/// demand; no random assignment dominates the shares, and none is worth more at the worths; the
/// named units of each cell are its units, and as many tickets give it, but for `none` where the
/// demand is 2 or more; and no agent envies one who is alike.
pub fn solves_well()
    ensures { SolvesAreWell }
{}

/// Two lotteries that solve one problem differ in their pieces alone, and in the design that they
/// may carry.
pub fn one_solution()
    ensures { OneSolution }
{}

/// Where `n ^ R` is at most 2^116, with `n` the sum of all demands and `R` the number of distinct
/// moments before the end of the eating table, or that of the limits, no table is too fine.
pub fn few_moments_fit()
    ensures { FewMomentsFit }
{}

/// The text of a lottery without a design that solves a problem reads as that lottery, where the
/// names of the problem are lawful and no object is `none`.
pub fn solutions_read_back()
    ensures { SolutionsReadBack }
{}
