//! An expected assignment as a weighted list of whole assignments: a matrix is taken apart piece by piece.
//!
//! Each piece rounds what is left of the matrix at every cell and set, and has the greatest weight at which each cell
//! and set can still be rounded afterwards. Lotteries over whole assignments for quotas on two hierarchies of sets:
//! Budish, Che, Kojima and Milgrom 2013. That no two pieces are equal, and that there is at most one piece more than
//! cells and sets that aren't whole, are the project's.
#![tactic(auto)]

mod collect;
mod peeler;

pub use collect::all_pieces;
pub use peeler::Peeler;
