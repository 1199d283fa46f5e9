//! The kinds of records of quotas.

ghost use Rattle.std.specs.Prelude.{◌≡◌};
ghost use Rattle.alloc_input.specs.Stated.{word_of};

use table_text::is_word;

/// The kinds of records of quotas, by their first field.
#[derive(Clone, Copy, Debug)]
pub(crate) enum Word {
    Object,
    Agent,
    Group,
    Bundle,
    Set,
    In,
}

/// The kind of a record with this first field.
#[tactic(auto, unfolding(crate::specs::Stated::word_of))]
pub(crate) fn word_of(text: &[u8]) -> Option<Word>
    ensures { result ≡ word_of text.now }
{
    if is_word(text, b"object") {
        return Some(Word::Object);
    }
    if is_word(text, b"agent") {
        return Some(Word::Agent);
    }
    if is_word(text, b"group") {
        return Some(Word::Group);
    }
    if is_word(text, b"bundle") {
        return Some(Word::Bundle);
    }
    if is_word(text, b"set") {
        return Some(Word::Set);
    }
    if is_word(text, b"in") {
        return Some(Word::In);
    }
    None
}
