//! Commands on a lottery: `pick` the piece of a ticket, `draw` that of the ticket that a seed names,
//! `pact-draw` that of the seed of a pact, and `report` the summary; and `pact-commit`, the record
//! with which a party of a pact commits.
//!
//! Each is a step: it reads its files, decides, puts its text together and writes it. No step knows
//! the words that ask for it, nor any other command.
//!
//! ```text
//! let text = b"lottery,1\ndenominator,1\nagents,x\nobjects,a\nrow,x,1\n\
//! piece,1,1\ngive,x,a,1\nend,1\n";
//! let mut out = SureSink::new(alloc);
//! pick::step(alloc, text, 0, &mut out)?;
//! assert_eq!(rt; out.bytes(), b"ticket,0,1\npiece,1,1\ngive,x,a,1\nend,1\n");
//!
//! let refused = pick::step(alloc, text, 1, &mut out);
//! assert_eq!(rt; refused, Err(Cause::TicketOutOfRange { ticket: 1, denominator: 1 }));
//!
//! // Each seed names the one ticket of a denominator of 1.
//! draw::step(alloc, text, [7; 32], &mut out)?;
//!
//! // One line of JSON.
//! report::step(alloc, text, &mut out)?;
//! ```
#![tactic(auto)]

pub mod draw;
mod hex_digits;
pub mod pact_commit;
pub mod pact_draw;
pub mod pick;
mod picked;
pub mod report;
