//! Names in fields. Whose names they are is not known here.

ghost use Rattle.std.specs.Prelude.{◌≡◌, codes, Some, None, if◌then◌else◌};
ghost use Rattle.std.specs.List.{list_all};
ghost use Rattle.std.specs.Option.{option_copied};
ghost use Rattle.std.specs.Str.{bytes_eq, chars};
ghost use Rattle.definitions.specs.Texts.{is_name, is_plain};

/// Whether a field is a name: 1 to 64 bytes of UTF-8, without code points below 32 or from 127 to
/// 159, and not `*`.
pub fn lawful_name(text: &[u8]) -> bool
    ensures { result ≡ is_name text.now }
{
    if text.is_empty() {
        return false;
    }
    if text.len() > 64 {
        return false;
    }
    if is_star(text) {
        return false;
    }
    match std::str::from_utf8(text) {
        Ok(name) => is_plain_text(name),
        Err(_) => false,
    }
}

/// The text of a field, where it is a name.
pub fn name_of(field: &[u8]) -> Option<&str>
    ensures { option_copied result ≡ (if is_name field.now then Some field.now else None) }
{
    if !lawful_name(field) {
        return None;
    }
    let Ok(name) = std::str::from_utf8(field) else {
        return None;
    };
    Some(name)
}

fn is_star(text: &[u8]) -> bool
    ensures { result ≡ bytes_eq text.now (codes "*") }
{
    text == b"*".as_slice()
}

fn is_plain_text(text: &str) -> bool
    ensures { result ≡ list_all is_plain (chars text.now) }
{
    text.chars()
        .all(|c| c >= ' ' && (c < '\u{7f}' || c > '\u{9f}'))
}
