//! What the readers of all three texts ask of a field. Nothing here knows in which record or text it stands.

ghost use Rattle.std.specs.Prelude.{◌≡◌, ◌++◌, ◌∷◌, [], ⊤, Some, false, not, is_some, OnOk};
ghost use Rattle.std.specs.Str.{bytes_eq};
ghost use Rattle.definitions.specs.Texts.{has_name, is_name, name_index, null_name};
ghost use Rattle.alloc_input.specs.Checks.{Finds, need};
ghost use Rattle.alloc_input.specs.declared.faults.InputKind.TheVariants as kind;

use crate::faults::InputKind;
use quota_sets::Names;
use std::alloc::AllocError;
use table_text::{is_word, name_of};

/// A check that fails with this kind where it doesn't hold.
pub(crate) fn need(holds: bool, kind: InputKind) -> Result<(), InputKind>
    ensures { Finds result (need holds kind) (λ _. ⊤) }
{
    if holds { Ok(()) } else { Err(kind) }
}

/// Whether a text is `none`.
pub(crate) fn is_null(text: &[u8]) -> bool
    ensures { result ≡ bytes_eq text.now null_name }
{
    is_word(text, b"none")
}

/// The name that a field is.
pub(crate) fn read_name(text: &[u8]) -> Result<&str, InputKind>
    ensures { Finds result (need (is_name text.now) kind.BadName) (λ name. name.now ≡ text.now) }
{
    name_of(text).ok_or(InputKind::BadName)
}

/// The place of the name that a field is.
pub(crate) fn find_known(names: &Names, text: &[u8], kind: InputKind) -> Result<u32, InputKind>
    ensures { Finds result (need (is_some (name_index names.now text.now)) kind)
        (λ place. name_index names.now text.now ≡ Some place) }
{
    names.find_bytes(text).ok_or(kind)
}

/// A check that a field is none of these names.
pub(crate) fn need_new(names: &Names, text: &[u8], kind: InputKind) -> Result<(), InputKind>
    ensures { Finds result (need (not (is_some (name_index names.now text.now))) kind)
        (λ _. has_name names.now text.now ≡ false) }
{
    if names.find_bytes(text).is_some() {
        return Err(kind);
    }
    Ok(())
}

/// Adds a copy of a name that isn't there.
pub(crate) fn add_name(names: &mut Names, name: &str) -> Result<(), AllocError>
    requires { has_name names.old name.now ≡ false }
    ensures { OnOk result (names.new ≡ names.old ++ name.now ∷ []) }
{
    // The places below 2^32 − 1 are all taken: there is no memory for one more.
    if names.len() == u32::MAX {
        return Err(AllocError);
    }
    names.add_copy(name).map_err(|_| AllocError)
}
