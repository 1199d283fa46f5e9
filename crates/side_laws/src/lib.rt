//! Laws of hierarchies and their sides (hierarchies and bihierarchies: Budish, Che, Kojima and Milgrom 2013).
//!
//! Each law is the contract of a function without parameters that does nothing: that the function is proved is that the law
//! holds. The statements stand in `specs/`, over the words of the crate `definitions`. Sets are numbered from 1; the side of
//! a set is 1 or 2; the chain of a set is the set, its parent, and so on up, as two tables of trees give them.
#![tactic(auto)]

ghost use Rattle.side_laws.specs.Chains.{ChainIsTheHolders, ChainIsTheSetsAbove, ChainStepsUp};
ghost use Rattle.side_laws.specs.Rings.{OddRingHasNoSides};
ghost use Rattle.side_laws.specs.Sums.{SumsByChains};

/// Where there is an odd ring of crossing sets, every choice of a side for each set leaves two crossing sets on one side,
/// so no choice of sides works.
pub fn odd_ring_has_no_sides()
    ensures { OddRingHasNoSides }
{}

/// In the trees of a lawful family the chain of a set is the set and then the chain of its parent. The chain of no set is
/// empty.
pub fn chain_steps_up()
    ensures { ChainStepsUp }
{}

/// In the trees of a lawful family the chain of a set's parent has exactly the sets above the set, each once. So the chain of
/// a set speaks of no table. Nothing is above an empty set there.
pub fn chain_is_the_sets_above()
    ensures { ChainIsTheSetsAbove }
{}

/// In the trees of a lawful family the chain of a cell's deepest set of a side has exactly the sets of that side that hold
/// the cell, each once.
pub fn chain_is_the_holders()
    ensures { ChainIsTheHolders }
{}

/// In the trees of a lawful family, sums and least numbers over the sets of a side that hold a cell are those along the chain
/// of the cell's deepest set, and the sum over a set is the sum over the cells whose chain passes the set.
pub fn sums_by_chains()
    ensures { SumsByChains }
{}
