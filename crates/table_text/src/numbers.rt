//! Whole numbers in fields, and their texts. What is counted is not known here.

ghost use Rattle.std.specs.Prelude.{◌≡◌, ◌≤◌, ◌<◌, ◌^◌, length, take, IfSome};
ghost use Rattle.std.specs.Fmt.{decimal};
ghost use Rattle.definitions.specs.Texts.{count_of, short_count_of, signed_of};

// The decimal digits of the greatest `u128`.
const MOST_DIGITS: usize = 39;

/// Puts the shortest decimal text of a number at the front, and answers its length, from 1 to 39.
pub fn digits(n: u128, into: &mut [u8; 39]) -> usize
    ensures text { take result into.new ≡ decimal n }
    ensures len { result ≡ length (decimal n) }
    ensures some { 1 ≤ result }
    ensures within { result ≤ 39 }
{
    let mut text = [0u8; 39];
    let mut at = 39usize;
    let mut rest = n;
    while rest >= 10 {
        at -= 1;
        text[at] = b'0' + (rest % 10) as u8;
        rest /= 10;
    }
    at -= 1;
    text[at] = b'0' + rest as u8;
    let len = 39 - at;
    into[..len].copy_from_slice(&text[at..]);
    len
}

/// The value of a count: 1 to 39 decimal digits, of a value below 2^128.
pub fn read_count(text: &[u8]) -> Option<u128>
    ensures { result ≡ count_of text.now }
{
    if text.is_empty() || text.len() > MOST_DIGITS {
        return None;
    }
    let mut value = 0u128;
    for b in text {
        if !b.is_ascii_digit() {
            return None;
        }
        let tens = value.checked_mul(10)?;
        value = tens.checked_add(u128::from(*b - b'0'))?;
    }
    Some(value)
}

/// The value of a signed number: 1 to 38 decimal digits, with a minus sign before them or without.
pub fn read_signed(text: &[u8]) -> Option<i128>
    ensures { result ≡ signed_of text.now }
{
    if text.is_empty() {
        return None;
    }
    if text[0] == b'-' {
        let size = read_short_count(&text[1..])?;
        return Some(-(size as i128));
    }
    let size = read_short_count(text)?;
    Some(size as i128)
}

// The value of a count of at most 38 digits.
#[tactic(auto, unfolding(definitions::specs::Texts::short_count_of))]
fn read_short_count(text: &[u8]) -> Option<u128>
    ensures value { result ≡ short_count_of text.now }
    ensures within { IfSome result (λ n. n < 10 ^ 38) }
{
    if text.len() > 38 {
        return None;
    }
    read_count(text)
}
