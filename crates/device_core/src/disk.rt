//! The files of a runtime. Nothing is told of what they hold.

ghost use Rattle.std.specs.Prelude.{◌≡◌, ◌+◌, ◌<◌, ◌≤◌, [], IfSome, OnOk, length, take, None};

use crate::{Files, LoadFault};
use std::io::Read;
use std::{fs, rt};

// How many bytes are asked for at once.
const BLOCK: usize = 8192;

/// The files of a runtime, by their paths.
///
/// Nothing is told of what they hold. A file that can't be opened, and a read that ends in an
/// error, an interrupted one too, is a fault; nothing is tried again.
#[derive(Drop)]
pub struct DiskFiles<'a, R: rt::Files> {
    rt: &'a R,
    faults: u64,
}

impl<'a, R: rt::Files> DiskFiles<'a, R> {
    /// The files of this runtime, of which no load has failed yet.
    pub fn new(rt: &'a R) -> DiskFiles<'a, R>
        ensures { ⟦<DiskFiles<'a, R> as Files>⟧.faults result ≡ 0 }
    {
        DiskFiles { rt, faults: 0 }
    }
}

// Puts what is left to read into an empty vector, at most one byte more than the limit. Each turn
// takes a byte or ends.
fn read_front<S: Read>(file: &mut S, limit: usize, into: &mut Vec<u8>) -> Result<(), LoadFault>
    requires limit { limit < usize.MAX }
    requires empty { into.old.items ≡ [] }
    ensures bytes { OnOk result (IfSome (S.remaining file.old) (λ left.
        into.new.items ≡ take (limit + 1) left)) }
    ensures bound { length into.new.items ≤ limit + 1 }
{
    let mut block = [0u8; BLOCK];
    while into.len() <= limit {
        let wanted = BLOCK.min(limit + 1 - into.len());
        match file.read(&mut block[..wanted]) {
            Err(_) => return Err(LoadFault::Failed),
            Ok(0) => return Ok(()),
            Ok(n) => into
                .extend_from_slice(&block[..n])
                .map_err(|_| LoadFault::NoMemory)?,
        }
    }
    Ok(())
}

impl<'a, R: rt::Files> Files for DiskFiles<'a, R> {
    ghost held = { λ _. None };

    ghost faults = { λ s. s.faults };

    fn load(&mut self, name: &str, limit: usize, into: &mut Vec<u8>) -> Result<(), LoadFault> {
        into.clear();
        let read = match fs::open(self.rt, name) {
            Ok(mut file) => read_front(&mut file, limit, into),
            Err(_) => Err(LoadFault::Failed),
        };
        match read {
            Ok(()) => Ok(()),
            Err(LoadFault::NoMemory) => {
                into.clear();
                Err(LoadFault::NoMemory)
            }
            Err(LoadFault::Failed) => {
                into.clear();
                self.faults = self.faults.saturating_add(1);
                Err(LoadFault::Failed)
            }
        }
    }
}
