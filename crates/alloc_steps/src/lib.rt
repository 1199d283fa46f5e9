//! Lotteries that are written while their pieces are peeled: a step of a command takes its memory,
//! and then every piece goes out as soon as it is made, so no list of pieces is kept. Where shares,
//! families and lists come from is not known here.
//!
//! ```text
//! let trees = Trees::of(alloc, &family)?;
//! let x = scale(alloc, &shares)?;
//! let mut out = SureSink::new(alloc);
//! write_split(alloc, &shares, &family, &trees, &x, &mut out)?;
//!
//! // A problem, what is eaten in it, and prices that certify this.
//! let eaten = eat(alloc, &problem, &trees)?;
//! let prices = certificate(alloc, &problem, &trees, &eaten)?;
//! write_solution(alloc, &problem, problem.family(), &trees, &eaten, &prices, &mut out)?;
//!
//! // The same with a peeler of one's own, as with lists and prices.
//! let mut peeler = Peeler::new(alloc, &trees, &family, &x)?;
//! let mut counts = vec![in alloc; 0; cells]?;
//! let (agents, objects) = (shares.agents(), shares.objects());
//! write_peeled(alloc, agents, objects, &x, &[], None, &mut peeler, &mut counts, &mut out)?;
//! ```
#![tactic(auto)]

mod apart;
mod copies;
mod counts;
pub mod decompose;
pub mod decompose_free;
mod gathered;
pub mod generate;
mod laws;
mod solution;
pub mod solve;
pub mod solve_guarded;
mod split;
mod written;

pub use laws::{few_moments_fit, one_solution, solutions_read_back, solves_well};
pub use solution::write_solution;
pub use split::write_split;
pub use written::write_peeled;
