//! Shares in fields: counts, quotients and decimals. Whose shares they are is not known here.

ghost use Rattle.std.specs.Prelude.{◌≡◌, ◌==◌, ◌<◌, IfSome, option_map, position};
ghost use Rattle.definitions.specs.Texts.{part_after, part_before, share_of};
ghost use Rattle.table_text.specs.Shares.{decimal_of, quotient_of, ratio_of};

use crate::numbers::read_count;

/// The value of a share, as a numerator and a denominator of at least 1, not reduced.
///
/// A share is nothing, which is 0; a count; a count, `/` and a count of at least 1; or 1 to 8
/// digits, `.` and 1 to 30 digits.
pub fn read_share(text: &[u8]) -> Option<(u128, u128)>
    ensures value { option_map ratio_of result ≡ share_of text.now }
    ensures positive { IfSome result (λ share. 0 < share.1) }
{
    if text.is_empty() {
        return Some((0, 1));
    }
    if let Some(count) = read_count(text) {
        return Some((count, 1));
    }
    if let Some(quotient) = read_quotient(text) {
        return Some(quotient);
    }
    read_decimal(text)
}

// The value of a count over a count of at least 1.
fn read_quotient(text: &[u8]) -> Option<(u128, u128)>
    ensures value { option_map ratio_of result ≡ quotient_of text.now }
    ensures positive { IfSome result (λ share. 0 < share.1) }
{
    let (before, after) = parts_at(text, b'/');
    let num = read_count(before)?;
    let den = read_count(after)?;
    if den == 0 {
        return None;
    }
    Some((num, den))
}

// The value of digits with a decimal point among them, over a power of ten.
fn read_decimal(text: &[u8]) -> Option<(u128, u128)>
    ensures value { option_map ratio_of result ≡ decimal_of text.now }
    ensures positive { IfSome result (λ share. 0 < share.1) }
{
    let (before, after) = parts_at(text, b'.');
    if before.len() > 8 || after.len() > 30 {
        return None;
    }
    let whole = read_count(before)?;
    let part = read_count(after)?;
    let den = 10u128.pow(after.len() as u32);
    Some((whole * den + part, den))
}

// The bytes before and after the first such byte: all and none where it isn't there.
fn parts_at(text: &[u8], byte: u8) -> (&[u8], &[u8])
    ensures before { result.0.now ≡ part_before byte text.now }
    ensures after { result.1.now ≡ part_after byte text.now }
{
    match position_of(text, byte) {
        Some(at) => (&text[..at], &text[at + 1..]),
        None => (text, &text[text.len()..]),
    }
}

// Where a byte stands first.
fn position_of(text: &[u8], byte: u8) -> Option<usize>
    ensures { result ≡ position (λ c. c == byte) text.now }
{
    text.iter().position(|c| *c == byte)
}
