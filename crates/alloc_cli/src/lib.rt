//! The commands of `lottery`: words, files and sinks go in, a status and a cause come out.
//!
//! `run` is all that the program does. The words of every command stand here, and the order in which
//! a run goes: words, loads, the command's step, the flush, the line on the error sink. What a step
//! reads and writes is known below.
//!
//! ```text
//! let words = words_of(alloc, &["sets", "prefs.csv", "quotas.csv"])?;
//! let mut files = SureFiles::new(files_of(alloc)?);
//! let (mut out, mut err) = (SureSink::new(alloc), SureSink::new(alloc));
//! let ended = run(alloc, &words, &mut files, &mut out, &mut err);
//! assert_eq!(rt; ended.cause, Cause::Done);
//! assert_eq!(rt; ended.status, 0);
//! ```
#![tactic(auto)]

mod answer;
mod fault_line;
mod finish;
mod lines;
mod load;
mod parts;
mod seed;
mod short_name;
mod top;
mod words;

pub use alloc_outcomes::Cause;
pub use finish::Ended;
pub use top::{one_answer, run};
