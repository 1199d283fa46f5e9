//! Laws of eating tables (simultaneous eating: Bogomolnaia and Moulin 2001, here under ceilings and with demands as speeds).
//!
//! Each law is the contract of a function without parameters that does nothing: that the function is proved is that the law
//! holds. The statements stand in `specs/`, over the words of the crate `definitions`. A market is the agents with their
//! demands and lists, and the limits: sets of cells with ceilings. A table over a denominator D has for each limit the moment,
//! from 0 to D, at which it is full; D says that it isn't full before the end.
#![tactic(auto)]

mod denominator_laws;
mod place_laws;
mod problem_laws;
mod share_laws;
mod table_laws;

pub use denominator_laws::{bound_on_denominators, no_first_too_fine, one_first_too_fine};
pub use place_laws::{eaten_by_places, full_from_the_earliest, prefixes_add_up, shares_by_place};
pub use problem_laws::{no_envy_among_alike, random_assignments_are_feasible};
pub use share_laws::{eaten_stays, eating_is_an_assignment, rows_add_up, sums_are_eaten};
pub use table_laws::{finer_moments, table_is_unique};
