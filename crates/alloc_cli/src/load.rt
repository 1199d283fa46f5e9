// Loads the files of a command.
ghost use Rattle.std.specs.Prelude.{◌≡◌, ◌<◌, map, string_bytes, length, IfOk, IfErr};
ghost use Rattle.alloc_cli.specs.Load.{bytes_of, LoadsCount};
ghost use Rattle.alloc_cli.specs.Runs.{IsGiven, IsUnread};

use alloc_outcomes::Cause;
use device_core::{Files, LoadFault};
use std::alloc::Global;

/// The most bytes of a file.
pub const FILE_LIMIT: usize = 67_108_864;

/// Loads the files in order, of each at most one byte more than the limit. A refusal ends it there.
pub fn load_all<F: Files>(
    alloc: Global,
    names: &[String],
    files: &mut F,
) -> Result<Vec<Vec<u8>>, Cause>
    requires { length names.now < 255 }
    ensures given { IfOk result (λ given.
        IsGiven (F.held files.old) (map string_bytes names.now) (bytes_of given.items)) }
    ensures held { F.held files.new ≡ F.held files.old }
    ensures refused { IfErr result (IsUnread (length names.now)) }
    ensures faults { LoadsCount (F.faults files.old) (F.faults files.new) result }
{
    let mut given = Vec::new(alloc);
    for (i, name) in names.iter().enumerate() {
        let mut bytes = Vec::new(alloc);
        match files.load(name.as_str(), FILE_LIMIT, &mut bytes) {
            Ok(()) => {}
            Err(LoadFault::NoMemory) => return Err(Cause::NoMemory),
            // The cause names the file, which the fault doesn't know.
            Err(LoadFault::Failed) => return Err(Cause::ReadFault { file: i as u8 + 1 }),
        }
        given.push(bytes)?;
    }
    Ok(given)
}
