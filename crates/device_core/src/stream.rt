//! A sink over any writer. It has no buffer, and knows no file or terminal.

ghost use Rattle.std.specs.Prelude.{◌≡◌, ℕ, List, None, OnErr, OnOk, IsOkUnless};
ghost use Rattle.std.specs.Io.KnownBytes.{Appends, Keeps};
ghost use Rattle.device_core.specs.Counts.{FlushCounts, WriteCounts};
ghost use Rattle.device_core.specs.Told.{Appended, IsFrontOf};

use crate::{Sink, SinkFault};
use std::io::Write;
use std::marker::Model;

/// A sink over a writer, without a buffer of its own.
///
/// As a sink it tells nothing of what was written. A write or a flush that ends in an error, an
/// interrupted one too, and a write that takes nothing of what is left of a piece, is a fault;
/// nothing is tried again. It takes no memory.
#[derive(Drop)]
pub struct StdSink<W: Write + Drop> {
    inner: W,
    faults: u64,
}

impl<W: Write + Drop> Model for StdSink<W> {
    ghost use Rattle.device_core.specs.Stream.{StdSinkState};

    ghost Value = { StdSinkState W };

    ghost view = { λ s. record { inner = s.inner; faults = s.faults } };
}

impl<W: Write + Drop> StdSink<W> {
    /// A sink over this writer, of which no call has failed yet.
    pub fn new(inner: W) -> StdSink<W>
        ensures { result ≡ record { inner = inner; faults = 0 } }
    {
        StdSink { inner, faults: 0 }
    }
}

// Writes the whole piece. Each turn puts out a byte or ends.
fn write_whole<W: Write>(writer: &mut W, piece: &[u8]) -> Result<(), SinkFault>
    ensures whole { OnOk result (
        Appends (W.contents writer.old) (W.contents writer.new) piece.now) }
    ensures front { OnErr result ((front : List ℕ) × IsFrontOf front piece.now ×
        Appends (W.contents writer.old) (W.contents writer.new) front) }
    ensures fault { IsOkUnless result SinkFault.Failed }
{
    let mut rest = piece;
    while !rest.is_empty() {
        match writer.write(rest) {
            Ok(0) | Err(_) => return Err(SinkFault::Failed),
            Ok(n) => rest = &rest[n..],
        }
    }
    Ok(())
}

impl<W: Write + Drop> Sink for StdSink<W> {
    ghost written = { λ _. None };

    ghost flushed = { λ _. 0 };

    ghost faults = { λ s. s.faults };

    ghost short = { λ _. 0 };

    fn write(&mut self, piece: &[u8]) -> Result<(), SinkFault>
        ensures bytes { Appended None None piece.now result }
        ensures cause { WriteCounts self.old.faults self.new.faults 0 0 result }

        // Where the writer tells what it holds, it got the piece, or after a refusal a front of it.
        ensures whole { OnOk result (
            Appends (W.contents self.old.inner) (W.contents self.new.inner) piece.now) }
        ensures front { OnErr result ((front : List ℕ) × IsFrontOf front piece.now ×
            Appends (W.contents self.old.inner) (W.contents self.new.inner) front) }
    {
        match write_whole(&mut self.inner, piece) {
            Ok(()) => Ok(()),
            Err(fault) => {
                self.faults = self.faults.saturating_add(1);
                Err(fault)
            }
        }
    }

    fn flush(&mut self) -> Result<(), SinkFault>
        ensures cause { FlushCounts self.old.faults self.new.faults 0 0 result }

        // Where the writer tells what it holds, it holds the same.
        ensures kept { Keeps (W.contents self.old.inner) (W.contents self.new.inner) }
    {
        match self.inner.flush() {
            Ok(()) => Ok(()),
            Err(_) => {
                self.faults = self.faults.saturating_add(1);
                Err(SinkFault::Failed)
            }
        }
    }
}
