//! Preferences, quotas and matrices as text, with the exact first fault of a text that is unlawful.
//!
//! A text with a fault is told by its file, the number of the record and the kind of the fault:
//!
//! ```text
//! let quotas = b"object,a,,1\n".as_slice();
//! match read_problem(alloc, b"agent\nx,a\n", quotas) {
//!     Ok(problem) => eat(&problem),
//!     Err(InputRefusal::Fault(fault)) => tell(fault.file, fault.record_no, fault.kind.number()),
//!     Err(InputRefusal::NoMemory) => give_up(),
//! }
//! let shares = read_matrix(alloc, b"agent,a\nx,1/2\n")?;
//! let (agents, objects) = (shares.agents(), shares.objects());
//! let family = read_quotas(alloc, quotas, agents, objects, Mode::Decompose)?;
//! ```
//!
//! The names of a matrix suit `read_quotas` by `lawful_matrices_suit`; `src/tests.rt` has both calls, proved.
#![tactic(auto)]

mod ending;
mod faults;
mod fields;
mod laws;
mod limits;
mod matrix;
mod mode;
mod prefs;
mod problem;
mod quotas;

pub use faults::{InputFault, InputKind, InputRefusal};
pub use laws::{
    first_faults, lawful_matrices_suit, lawful_quotas_suit, matrix_reads_once, problem_reads_once,
    quotas_read_once, what_a_matrix_says, what_preferences_say, what_quotas_say,
};
pub use matrix::read_matrix;
pub use mode::Mode;
pub use problem::read_problem;
pub use quotas::{read_demands, read_quotas};
