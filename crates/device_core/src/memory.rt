//! Devices in memory whose calls fail by a list.

ghost use Rattle.std.specs.Prelude.{◌≡◌, ◌+◌, ◌<◌, ◌≤◌, ◌↔◌, [], Some, IsErrOf, IsSome, OnErr, OnOk, length, take};
ghost use Rattle.device_core.specs.Counts.{LoadCounts, WriteCounts, FlushCounts};
ghost use Rattle.device_core.specs.Held.{bytes_at};
ghost use Rattle.device_core.specs.Memory.{FailsToLoad, WriteAnswers, files_of, kept_at, next_call};
ghost use Rattle.device_core.specs.Told.{Appended};

use crate::named::{copy_front, find_file};
use crate::{Files, LoadFault, Sink, SinkFault};
use std::alloc::Global;
use std::marker::Model;

/// Files in memory whose loads fail by a list. Loads are numbered from 0.
#[derive(Drop)]
pub struct MemoryFiles {
    files: Vec<(String, Vec<u8>)>,
    failing: Vec<u64>,
    calls: u64,
    faults: u64,
}

impl Model for MemoryFiles {
    ghost use Rattle.device_core.specs.Memory.{MemoryFilesState, files_of};

    ghost Value = { MemoryFilesState };

    ghost view = { λ s. record {
      held = files_of s.files.items;
      failing = s.failing.items;
      calls = s.calls;
      faults = s.faults;
    } };
}

impl MemoryFiles {
    /// Files with these names and bytes. A load whose number is in `failing` fails, and so does one
    /// of a name that no file has.
    pub fn new(files: Vec<(String, Vec<u8>)>, failing: Vec<u64>) -> MemoryFiles
        ensures { result ≡ record {
          held = files_of files.items;
          failing = failing.items;
          calls = 0;
          faults = 0;
        } }
    {
        MemoryFiles {
            files,
            failing,
            calls: 0,
            faults: 0,
        }
    }
}

impl Files for MemoryFiles {
    ghost held = { λ s. Some s.held };

    ghost faults = { λ s. s.faults };

    fn load(&mut self, name: &str, limit: usize, into: &mut Vec<u8>) -> Result<(), LoadFault>
        requires { limit < usize.MAX }
        ensures bytes { OnOk result (into.new.items
            ≡ take (limit + 1) (bytes_at self.old.held name.now)) }
        ensures held { self.new.held ≡ self.old.held }
        ensures bound { length into.new.items ≤ limit + 1 }
        ensures refused { OnErr result (into.new.items ≡ []) }
        ensures cause { LoadCounts self.old.faults self.new.faults result }

        // Which loads fail, and what the next one's number is.
        ensures failed { IsErrOf result LoadFault.Failed ↔ FailsToLoad self.old name.now }
        ensures next { self.new.calls ≡ next_call self.old.calls }
        ensures failing { self.new.failing ≡ self.old.failing }
    {
        into.clear();
        let call = self.calls;
        self.calls = call.saturating_add(1);
        if !self.failing.contains(&call) {
            if let Some(bytes) = find_file(&self.files, name) {
                return copy_front(bytes, limit, into);
            }
        }
        self.faults = self.faults.saturating_add(1);
        Err(LoadFault::Failed)
    }
}

/// A sink in memory whose writes and flushes fail by a list. Both are numbered from 0 together.
#[derive(Drop)]
pub struct MemorySink {
    bytes: Vec<u8>,
    flushed: usize,
    failing: Vec<(u64, usize)>,
    calls: u64,
    faults: u64,
    short: u64,
}

impl Model for MemorySink {
    ghost use Rattle.device_core.specs.Memory.{MemorySinkState};

    ghost Value = { MemorySinkState };

    ghost view = { λ s. record {
      written = s.bytes.items;
      flushed = s.flushed;
      failing = s.failing.items;
      calls = s.calls;
      faults = s.faults;
      short = s.short;
    } };
}

impl MemorySink {
    /// An empty sink. A write whose number is in a pair of `failing` appends at most so many bytes
    /// as the pair says and fails; a flush whose number is there fails. Of several pairs with one
    /// number the first counts.
    pub fn new(alloc: Global, failing: Vec<(u64, usize)>) -> MemorySink
        ensures { result ≡ record {
          written = [];
          flushed = 0;
          failing = failing.items;
          calls = 0;
          faults = 0;
          short = 0;
        } }
    {
        MemorySink {
            bytes: Vec::new(alloc),
            flushed: 0,
            failing,
            calls: 0,
            faults: 0,
            short: 0,
        }
    }

    /// What was written so far.
    pub fn bytes(&self) -> &[u8]
        ensures { result.now ≡ self.now.written }
    {
        &self.bytes
    }
}

// How many bytes the call of this number keeps, where it fails.
fn kept_of(failing: &[(u64, usize)], call: u64) -> Option<usize>
    ensures { result ≡ kept_at failing.now call }
{
    failing
        .iter()
        .find(|pair| pair.0 == call)
        .map(|pair| pair.1)
}

impl Sink for MemorySink {
    ghost written = { λ s. Some s.written };

    ghost flushed = { λ s. s.flushed };

    ghost faults = { λ s. s.faults };

    ghost short = { λ s. s.short };

    fn write(&mut self, piece: &[u8]) -> Result<(), SinkFault>
        ensures bytes { Appended (Some self.old.written) (Some self.new.written) piece.now result }
        ensures flushed { self.new.flushed ≡ self.old.flushed }
        ensures cause { WriteCounts self.old.faults self.new.faults self.old.short self.new.short result }

        // Which writes fail, what they keep, and what the next call's number is.
        ensures answers { WriteAnswers (kept_at self.old.failing self.old.calls)
            self.old.written self.new.written piece.now result }
        ensures next { self.new.calls ≡ next_call self.old.calls }
        ensures failing { self.new.failing ≡ self.old.failing }
    {
        let call = self.calls;
        self.calls = call.saturating_add(1);
        let kept = kept_of(&self.failing, call);
        let end = piece.len().min(kept.unwrap_or(piece.len()));
        if self.bytes.extend_from_slice(&piece[..end]).is_err() {
            self.short = self.short.saturating_add(1);
            return Err(SinkFault::NoMemory);
        }
        if kept.is_some() {
            self.faults = self.faults.saturating_add(1);
            return Err(SinkFault::Failed);
        }
        Ok(())
    }

    fn flush(&mut self) -> Result<(), SinkFault>
        ensures bytes { self.new.written ≡ self.old.written }
        ensures flushed { OnOk result (self.new.flushed ≡ length self.old.written) }
        ensures refused { OnErr result (self.new.flushed ≡ self.old.flushed) }
        ensures cause { FlushCounts self.old.faults self.new.faults self.old.short self.new.short result }

        // Which flushes fail, and what the next call's number is.
        ensures failed { IsErrOf result SinkFault.Failed
            ↔ IsSome (kept_at self.old.failing self.old.calls) }
        ensures next { self.new.calls ≡ next_call self.old.calls }
        ensures failing { self.new.failing ≡ self.old.failing }
    {
        let call = self.calls;
        self.calls = call.saturating_add(1);
        if kept_of(&self.failing, call).is_some() {
            self.faults = self.faults.saturating_add(1);
            return Err(SinkFault::Failed);
        }
        self.flushed = self.bytes.len();
        Ok(())
    }
}
