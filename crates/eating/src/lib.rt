//! Simultaneous eating (Bogomolnaia and Moulin 2001) under ceilings, with demands as speeds, as an exact table.
//!
//! Every agent eats, at the speed of its demand, from moment 0 to moment 1, the first object on its list whose cell
//! is in no full set. The sets are the stated sets of the problem and, for each capped cell, that cell alone with
//! ceiling 1; a cell is capped where its agent has a demand of 2 or more. A set is full once its cells' amounts add
//! up to its ceiling. `none` is in no set and is never full.
//!
//! ```rust
//! use bihierarchy::Trees;
//! use eating::eat;
//! use quota_sets::{Cell, Family, Names, Problem};
//!
//! let mut agents = Names::new(alloc);
//! agents.add(String::from_str(alloc, "x")?)?;
//! let lists = vec![in alloc; vec![in alloc; 0]?]?;
//! let family = Family::new(alloc, 1, 1);
//! let problem = Problem::new(alloc, agents, Names::new(alloc), lists, family)?;
//! let trees = Trees::of(alloc, problem.family())?;
//! let eaten = eat(alloc, &problem, &trees)?;
//! assert_eq!(rt; eaten.shares().denominator(), 1);
//! assert_eq!(rt; eaten.shares().at(Cell { agent: 0, object: 0 }), 1);
//! ```
#![tactic(auto)]

mod answer;
mod due;
mod eaten;
mod eater;
mod plan;
mod progress;
mod serving;

pub use answer::{EatFault, eat};
pub use eaten::Eaten;
pub use eater::{Eater, TooFineTable};
