//! Files in memory by their names. Which loads fail is not known here.

ghost use Rattle.std.specs.Prelude.{◌≡◌, ◌+◌, ◌<◌, [], take, length, OnOk, OnErr, IsOkUnless};
ghost use Rattle.std.specs.Option.{option_copied};
ghost use Rattle.device_core.specs.Held.{file_at};
ghost use Rattle.device_core.specs.Memory.{files_of};

use crate::LoadFault;

// The bytes of the first file of that name.
pub(crate) fn find_file<'a>(files: &'a [(String, Vec<u8>)], name: &str) -> Option<&'a [u8]>
    ensures { option_copied result ≡ file_at (files_of files.now) name.now }
{
    for (held, bytes) in files {
        if held.as_str() == name {
            return Some(bytes.as_slice());
        }
    }
    None
}

// Puts the first bytes into an empty vector, at most one byte more than the limit.
pub(crate) fn copy_front(bytes: &[u8], limit: usize, into: &mut Vec<u8>) -> Result<(), LoadFault>
    requires limit { limit < usize.MAX }
    requires empty { into.old.items ≡ [] }
    ensures ok { OnOk result (into.new.items ≡ take (limit + 1) bytes.now) }
    ensures err { OnErr result (into.new.items ≡ []) }
    ensures memory_alone { IsOkUnless result LoadFault.NoMemory }
{
    let end = bytes.len().min(limit + 1);
    into.extend_from_slice(&bytes[..end])
        .map_err(|_| LoadFault::NoMemory)
}
