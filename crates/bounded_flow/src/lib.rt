//! Whole matrices that round a remainder at each cell and each set of a bihierarchy, and the greatest weight with which such a
//! matrix can be taken off.
//!
//! Cells and sets are the edges of a graph: a unit runs down the sets of side 1, through a cell, and up the sets of side 2.
//! An edge whose whole units are too far from its share is mended by a unit that is pushed round a ring of edges, each of them
//! toward its share (Budish, Che, Kojima and Milgrom 2013 show that a rounding exists).
//! The edges stand in a queue by how far they are from their shares, so that the farthest is at hand. A search for a
//! way looks only at edges that had a gap from the start, since no push gives one to another.
#![tactic(auto)]

mod building;
mod edge;
mod held;
mod net;
mod repair;
mod search;

pub use net::Net;
