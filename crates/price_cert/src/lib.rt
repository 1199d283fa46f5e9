//! Prices of the stated sets and worths of the places that certify the assignment of simultaneous eating.
//!
//! The recipe: the distinct moments before the end are numbered 1 to R in rising order, also the moment 0 and those of
//! capped cells. The rank of a set is the least number that it or a set above it has, and R + 1 where none has one. The
//! width is the length of the longest list plus 1. The price of a set is the width times what the rank of its parent
//! (R + 1 without one) is above its own. The worth of an eaten place is the width times what R + 1 is above the number
//! of the moment at which its cell is full. A place before an eaten one has the worth of the next eaten place plus the
//! distance to it, and after the last eaten place worths fall by 1 from place to place.
//!
//! ```rust
//! use bihierarchy::Trees;
//! use eating::eat;
//! use price_cert::certificate;
//!
//! let trees = Trees::of(alloc, problem.family())?;
//! let eaten = eat(alloc, &problem, &trees)?;
//! let prices = certificate(alloc, &problem, &trees, &eaten)?;
//! for (set, price) in prices.price.iter().enumerate() {
//!     writeln!(out, "price,{},{price}", set + 1)?;
//! }
//! ```
#![tactic(auto)]

mod answer;
mod moments;
mod ranks;
mod recipe;
mod worths;

pub use answer::{certificate, recipe_certifies};
