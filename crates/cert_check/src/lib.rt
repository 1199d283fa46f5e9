//! Whether a lottery is what it should be: checks in a fixed order, of which the first that fails is answered, with its number and
//! its fields.
//!
//! Files, commands and texts aren't known here: who writes a fault down takes its number from here,
//! and its fields in the order of `specs/Faults`.
#![tactic(auto)]

mod best;
mod cells;
mod counts;
mod distinct;
mod faults;
mod holders;
mod matrix;
mod pieces;
mod prices;
mod same;
mod set_sums;
mod sets;
mod shape;
mod sums;
mod total_table;
mod totals;
mod verdicts;

pub use faults::Fault;
pub use matrix::check_matrix;
pub use pieces::{check_pieces, check_pieces_in};
pub use prices::check_prices;
pub use shape::{check_shape, is_same_name};
pub use verdicts::Verdict;
