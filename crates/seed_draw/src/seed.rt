//! From a seed to its ticket: the words of ChaCha20, candidates of four words each, and the first
//! candidate below the denominator.

ghost use Rattle.std.specs.Prelude.{◌≡◌, ℕ, ◌+◌, ◌*◌, ◌%◌, ◌<◌, ◌≤◌, ◌^◌, IfSome};
ghost use Rattle.definitions.specs.Tickets.{binary_digits, ticket_of};
ghost use Rattle.rand_chacha.specs.ChaCha.{word_at};
ghost use Rattle.seed_draw.specs.Words.{four_words, seed_words};

use rand_chacha::ChaCha20Rng;
use rand_core::SeedableRng;
use rand_core::utils::NextWord;

/// The ticket that a seed names out of `denominator` tickets, or None where it names none.
///
/// The words are those of ChaCha20 (RFC 8439) with a 64-bit counter, the seed as key and a nonce
/// of zero. Candidate k, from 0, has the lowest bits of words 4k to 4k + 3, the first word least:
/// as many as `denominator - 1` has binary digits. The ticket is the first candidate below the
/// denominator among candidates 0 to 255. A candidate that isn't below is passed over and not
/// divided, since a remainder would give some tickets more candidates than others.
pub fn ticket(seed: [u8; 32], denominator: u128) -> Option<u128>
    requires { 1 ≤ denominator }
    ensures value { result ≡ ticket_of (seed_words seed) denominator }
    ensures below { IfSome result (λ t. t < denominator) }
{
    let digits = digit_count(denominator - 1);
    let mut words = ChaCha20Rng::from_seed(seed);
    for _k in 0..256u32 {
        let number = next_number(&mut words);
        let candidate = lowest_digits(number, digits);
        if candidate < denominator {
            return Some(candidate);
        }
    }
    None
}

// How many binary digits a number has.
fn digit_count(number: u128) -> u32
    ensures value { result ≡ binary_digits number }
    ensures within { result ≤ 128 }
{
    128 - number.leading_zeros()
}

// The lowest binary digits of a number, as many as `digits`.
fn lowest_digits(number: u128, digits: u32) -> u128
    requires { digits ≤ 128 }
    ensures { result ≡ number % 2 ^ digits }
{
    if digits == 128 {
        number
    } else {
        number % (1 << digits)
    }
}

// The next four words as one number, the first word least.
fn next_number(words: &mut ChaCha20Rng) -> u128
    requires { words.old.word_pos + 4 < 2 ^ 68 }
    ensures value { result
        ≡ four_words (word_at 10 words.old.key words.old.stream) words.old.word_pos }
    ensures moved { words.new ≡ record words.old { word_pos = words.old.word_pos + 4 } }
{
    let first = u128::from(words.next_word());
    let second = u128::from(words.next_word());
    let third = u128::from(words.next_word());
    let fourth = u128::from(words.next_word());
    first + (second << 32) + (third << 64) + (fourth << 96)
}
