// The kinds of records, and which may follow which.
ghost use Rattle.std.specs.Prelude.{◌≡◌};
ghost use Rattle.lottery_file.specs.Said.{word_of};
ghost use Rattle.lottery_file.specs.Checks.{may_follow, is_ended};

use table_text::is_word;

/// The kinds of records, by their first field.
#[derive(Clone, Copy, Debug)]
pub(crate) enum Word {
    Lottery,
    Denominator,
    Agents,
    Objects,
    Row,
    Price,
    Worth,
    Piece,
    Give,
    End,
}

// The kind of a record with this first field.
#[tactic(auto, unfolding(crate::specs::Said::word_of))]
pub(crate) fn word_of(text: &[u8]) -> Option<Word>
    ensures { result ≡ word_of text.now }
{
    if is_word(text, b"lottery") {
        return Some(Word::Lottery);
    }
    if is_word(text, b"denominator") {
        return Some(Word::Denominator);
    }
    if is_word(text, b"agents") {
        return Some(Word::Agents);
    }
    if is_word(text, b"objects") {
        return Some(Word::Objects);
    }
    if is_word(text, b"row") {
        return Some(Word::Row);
    }
    if is_word(text, b"price") {
        return Some(Word::Price);
    }
    if is_word(text, b"worth") {
        return Some(Word::Worth);
    }
    if is_word(text, b"piece") {
        return Some(Word::Piece);
    }
    if is_word(text, b"give") {
        return Some(Word::Give);
    }
    if is_word(text, b"end") {
        return Some(Word::End);
    }
    None
}

// Whether a record of the one kind may come right after one of the other.
#[tactic(auto, unfolding(crate::specs::Checks::may_follow))]
pub(crate) fn may_follow(word: Word, last: Option<Word>) -> bool
    ensures { result ≡ may_follow word last }
{
    match (word, last) {
        (Word::Lottery, None) => true,
        (Word::Denominator, Some(Word::Lottery)) => true,
        (Word::Agents, Some(Word::Denominator)) => true,
        (Word::Objects, Some(Word::Agents)) => true,
        (Word::Row, Some(Word::Objects | Word::Row)) => true,
        (Word::Price, Some(Word::Row | Word::Price)) => true,
        (Word::Worth, Some(Word::Row | Word::Price | Word::Worth)) => true,
        (Word::Piece, Some(Word::Row | Word::Worth | Word::Piece | Word::Give)) => true,
        (Word::Give, Some(Word::Piece | Word::Give)) => true,
        (Word::End, Some(Word::Piece | Word::Give)) => true,
        _ => false,
    }
}

pub(crate) fn is_ended(last: Option<Word>) -> bool
    ensures { result ≡ is_ended last }
{
    matches!(last, Some(Word::End))
}
