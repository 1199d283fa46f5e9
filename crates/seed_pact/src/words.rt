// The kinds of records, by their first field.
ghost use Rattle.std.specs.Prelude.{◌≡◌};
ghost use Rattle.seed_pact.specs.Said.{word_of};

use table_text::is_word;

/// The kinds of records.
#[derive(Clone, Copy, Debug)]
pub(crate) enum Word {
    Pact,
    Commit,
    Reveal,
}

// The kind of a record with this first field.
#[tactic(auto, unfolding(crate::specs::Said::word_of))]
pub(crate) fn word_of(text: &[u8]) -> Option<Word>
    ensures { result ≡ word_of text.now }
{
    if is_word(text, b"pact") {
        return Some(Word::Pact);
    }
    if is_word(text, b"commit") {
        return Some(Word::Commit);
    }
    if is_word(text, b"reveal") {
        return Some(Word::Reveal);
    }
    None
}
