//! Devices in memory that never fail.

ghost use Rattle.std.specs.Prelude.{◌≡◌, [], Some};
ghost use Rattle.device_core.specs.Memory.{files_of};

use crate::named::{copy_front, find_file};
use crate::{Files, LoadFault, Sink, SinkFault};
use std::alloc::Global;
use std::marker::Model;

/// Files in memory, of which none fails. A name that no file has is an empty file.
#[derive(Drop)]
pub struct SureFiles {
    files: Vec<(String, Vec<u8>)>,
}

impl Model for SureFiles {
    ghost use Rattle.std.specs.Prelude.{ℕ, List};
    ghost use Rattle.device_core.specs.Memory.{files_of};

    ghost Value = { List (List ℕ × List ℕ) };

    ghost view = { λ s. files_of s.files.items };
}

impl SureFiles {
    /// Files with these names and bytes.
    pub fn new(files: Vec<(String, Vec<u8>)>) -> SureFiles
        ensures { result ≡ files_of files.items }
    {
        SureFiles { files }
    }
}

impl Files for SureFiles {
    ghost held = { λ files. Some files };

    ghost faults = { λ _. 0 };

    fn load(&mut self, name: &str, limit: usize, into: &mut Vec<u8>) -> Result<(), LoadFault> {
        into.clear();
        match find_file(&self.files, name) {
            Some(bytes) => copy_front(bytes, limit, into),
            None => Ok(()),
        }
    }
}

/// A sink in memory, of which no write and no flush fails but for want of memory.
#[derive(Drop)]
pub struct SureSink {
    bytes: Vec<u8>,
    flushed: usize,
    short: u64,
}

impl Model for SureSink {
    ghost use Rattle.device_core.specs.Sure.{SureSinkState};

    ghost Value = { SureSinkState };

    ghost view = { λ s. record { written = s.bytes.items; flushed = s.flushed; short = s.short } };
}

impl SureSink {
    /// An empty sink.
    pub fn new(alloc: Global) -> SureSink
        ensures { result ≡ record { written = []; flushed = 0; short = 0 } }
    {
        SureSink {
            bytes: Vec::new(alloc),
            flushed: 0,
            short: 0,
        }
    }

    /// What was written so far.
    pub fn bytes(&self) -> &[u8]
        ensures { result.now ≡ self.now.written }
    {
        &self.bytes
    }
}

impl Sink for SureSink {
    ghost written = { λ s. Some s.written };

    ghost flushed = { λ s. s.flushed };

    ghost faults = { λ _. 0 };

    ghost short = { λ s. s.short };

    fn write(&mut self, piece: &[u8]) -> Result<(), SinkFault> {
        if self.bytes.extend_from_slice(piece).is_err() {
            self.short = self.short.saturating_add(1);
            return Err(SinkFault::NoMemory);
        }
        Ok(())
    }

    fn flush(&mut self) -> Result<(), SinkFault> {
        self.flushed = self.bytes.len();
        Ok(())
    }
}
