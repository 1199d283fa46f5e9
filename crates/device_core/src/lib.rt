//! Files and sinks by what is asked of them, with a count of the faults that each has had.
//!
//! A caller is generic over `Files` and `Sink`, whose clauses say what a call gives, what a refusal
//! leaves, and that a fault is answered only where a count rose. `SureFiles` and `SureSink` keep
//! everything in memory and never fail. `MemoryFiles` and `MemorySink` fail by a list, for tests.
//! `DiskFiles` and `StdSink` reach the outside, and tell nothing of it. What the bytes say is not
//! known here.
//!
//! ```text
//! let mut files = SureFiles::new(one_file(alloc)?);
//! let mut bytes = Vec::new(alloc);
//! assert_eq!(rt; files.load("words", 3, &mut bytes), Ok(()));
//! assert_eq!(rt; bytes.as_slice(), b"hell".as_slice());
//!
//! // The call of number 1 fails once it has kept 2 bytes.
//! let mut sink = MemorySink::new(alloc, vec![in alloc; (1, 2)]?);
//! assert_eq!(rt; sink.write(bytes.as_slice()), Ok(()));
//! assert_eq!(rt; sink.write(b"ish"), Err(SinkFault::Failed));
//! assert_eq!(rt; sink.bytes(), b"hellis".as_slice());
//! ```
#![tactic(auto)]

mod disk;
mod faults;
mod memory;
mod named;
mod stream;
mod sure;
mod traits;

pub use disk::DiskFiles;
pub use faults::{LoadFault, SinkFault};
pub use memory::{MemoryFiles, MemorySink};
pub use stream::StdSink;
pub use sure::{SureFiles, SureSink};
pub use traits::{Files, Sink};

#[cfg(test)]
mod tests;
