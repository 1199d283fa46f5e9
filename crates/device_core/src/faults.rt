//! Why a device refuses. It knows no caller's causes.

use thiserror::Error;

/// Why a file was not loaded.
#[derive(Clone, Copy, Debug, PartialEq, Eq, Error)]
pub enum LoadFault {
    /// The file could not be opened or read. The count of faults rose.
    #[error("the file could not be read")]
    Failed,
    /// Memory was refused.
    #[error("no memory to load the file")]
    NoMemory,
}

/// Why a piece was not written, or what was written not flushed.
#[derive(Clone, Copy, Debug, PartialEq, Eq, Error)]
pub enum SinkFault {
    /// The device did not take it. The count of faults rose.
    #[error("the write failed")]
    Failed,
    /// Memory was refused. Over one write the count of short writes rose.
    #[error("no memory for the write")]
    NoMemory,
}
