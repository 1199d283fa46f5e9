//! Files that are loaded whole, and a sink that is written in pieces. No device is known here.

ghost use Rattle.std.specs.Prelude.{◌≡◌, ◌+◌, ◌<◌, ◌≤◌, List, [], ℕ, length, take, Option, IfSome, OnOk, OnErr};
ghost use Rattle.device_core.specs.Held.{bytes_at};
ghost use Rattle.device_core.specs.Told.{Appended};
ghost use Rattle.device_core.specs.Counts.{LoadCounts, WriteCounts, FlushCounts};

use crate::{LoadFault, SinkFault};

/// Files by name.
pub trait Files {
    /// The name and the bytes of each file, where the object tells them. Of several with one name
    /// the first counts.
    ghost held: { Self → Option (List (List ℕ × List ℕ)) };

    /// How many loads have failed. It never falls.
    ghost faults: { Self → ℕ };

    /// Clears `into` and puts the file's first bytes there, all of them or `limit` + 1. So the
    /// caller learns whether the file is longer than `limit`, and never holds more. A name that no
    /// file has gives no bytes, or is a fault.
    ///
    /// After a refusal `into` is empty. `Failed` comes only where the count of faults rose.
    fn load(&mut self, name: &str, limit: usize, into: &mut Vec<u8>) -> Result<(), LoadFault>
        requires { limit < usize.MAX }
        ensures bytes { OnOk result (IfSome (held self.old) (λ pairs.
            into.new.items ≡ take (limit + 1) (bytes_at pairs name.now))) }
        ensures held { held self.new ≡ held self.old }
        ensures bound { length into.new.items ≤ limit + 1 }
        ensures refused { OnErr result (into.new.items ≡ []) }
        ensures cause { LoadCounts (faults self.old) (faults self.new) result };
}

/// A sink that is written piece by piece.
pub trait Sink {
    /// The bytes so far, where the object tells them.
    ghost written: { Self → Option (List ℕ) };

    /// How many bytes there were at the last flush that answered `Ok`, or 0 before the first. It
    /// means something only where `written` is told.
    ghost flushed: { Self → ℕ };

    /// How many writes and flushes have failed. It never falls.
    ghost faults: { Self → ℕ };

    /// How many writes were refused for want of memory. It never falls.
    ghost short: { Self → ℕ };

    /// Appends the piece. After a refusal some first bytes of it were appended, maybe none.
    ///
    /// `Failed` comes only where the count of faults rose, `NoMemory` only where that of short
    /// writes rose.
    fn write(&mut self, piece: &[u8]) -> Result<(), SinkFault>
        ensures bytes { Appended (written self.old) (written self.new) piece.now result }
        ensures flushed { flushed self.new ≡ flushed self.old }
        ensures cause { WriteCounts (faults self.old) (faults self.new)
            (short self.old) (short self.new) result };

    /// Hands on what was written. A refusal is always `Failed`, and comes only where the count of
    /// faults rose.
    fn flush(&mut self) -> Result<(), SinkFault>
        ensures bytes { written self.new ≡ written self.old }
        ensures flushed { OnOk result (IfSome (written self.old) (λ bytes.
            flushed self.new ≡ length bytes)) }
        ensures refused { OnErr result (flushed self.new ≡ flushed self.old) }
        ensures cause { FlushCounts (faults self.old) (faults self.new)
            (short self.old) (short self.new) result };
}
