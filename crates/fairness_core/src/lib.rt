//! Who envies whom (Bogomolnaia and Moulin 2001), and which agents are alike.
//!
//! An agent envies another where, for some k, the other's units of the columns at the first k places of its list add up
//! to more than its own; the place of `none` counts too. Two agents are alike where their demands are equal and each set
//! of the problem holds the one's cell of an object exactly where it holds the other's. Where shares are eaten, no agent
//! envies one who is alike.
//!
//! ```rust
//! use fairness_core::{alike, eaten_envy};
//!
//! let envies = eaten_envy(alloc, &problem, &eaten)?;
//! for envy in &envies.list {
//!     assert!(rt; !alike(&problem, envy.from, envy.to));
//! }
//! ```
#![tactic(auto)]

mod likeness;
mod list;
mod point;

pub use likeness::alike;
pub use list::{Envy, EnvyList, FairFault, eaten_envy, envy_list};
pub use point::{EnvyPoint, envy_point};
