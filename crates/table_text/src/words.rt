//! Records that begin with a word, and their texts. Which words there are is not known here.

ghost use Rattle.std.specs.Prelude.{◌≡◌, ◌++◌, ◌∷◌, [], codes, IfOk, OnOk, OnErr};
ghost use Rattle.std.specs.Fmt.{decimal};
ghost use Rattle.std.specs.Str.{bytes_eq};
ghost use Rattle.table_text.specs.Rows.{rows_text};

use crate::row::{NoMemory, Row};
use crate::writing::row_bytes;
use std::alloc::Global;

/// Whether a text is this word.
pub fn is_word(text: &[u8], word: &[u8]) -> bool
    ensures { result ≡ bytes_eq text.now word.now }
{
    text == word
}

/// The record of two words.
pub fn row_of_words(alloc: Global, first: &[u8], second: &[u8]) -> Result<Row, NoMemory>
    ensures { IfOk result (λ row. row ≡ first.now ∷ second.now ∷ []) }
{
    let mut row = Row::new(alloc);
    row.push(first)?;
    row.push(second)?;
    Ok(row)
}

/// The record of a word and a number.
pub fn row_of_number(alloc: Global, word: &[u8], number: u128) -> Result<Row, NoMemory>
    ensures { IfOk result (λ row. row ≡ word.now ∷ decimal number ∷ []) }
{
    let mut row = Row::new(alloc);
    row.push(word)?;
    row.push_number(number)?;
    Ok(row)
}

/// The record of a word and two numbers.
pub fn row_of_two(alloc: Global, word: &[u8], first: u128, second: u128) -> Result<Row, NoMemory>
    ensures { IfOk result (λ row. row ≡ word.now ∷ decimal first ∷ decimal second ∷ []) }
{
    let mut row = row_of_number(alloc, word, first)?;
    row.push_number(second)?;
    Ok(row)
}

/// Appends the record of a word and a number. After `NoMemory` `into` is as before.
pub fn put_number(
    alloc: Global,
    word: &[u8],
    number: u128,
    into: &mut Vec<u8>,
) -> Result<(), NoMemory>
    ensures ok { OnOk result (into.new.items
        ≡ into.old.items ++ rows_text ((word.now ∷ decimal number ∷ []) ∷ [])) }
    ensures err { OnErr result (into.new.items ≡ into.old.items) }
{
    let row = row_of_number(alloc, word, number)?;
    row_bytes(&row, into)
}

/// Appends the record of a word and two numbers. After `NoMemory` `into` is as before.
pub fn put_two(
    alloc: Global,
    word: &[u8],
    first: u128,
    second: u128,
    into: &mut Vec<u8>,
) -> Result<(), NoMemory>
    ensures ok { OnOk result (into.new.items
        ≡ into.old.items ++ rows_text ((word.now ∷ decimal first ∷ decimal second ∷ []) ∷ [])) }
    ensures err { OnErr result (into.new.items ≡ into.old.items) }
{
    let row = row_of_two(alloc, word, first, second)?;
    row_bytes(&row, into)
}

/// Appends the record at the end of a text, with what the text counts. After `NoMemory` `into` is
/// as before.
pub fn put_end(alloc: Global, count: u128, into: &mut Vec<u8>) -> Result<(), NoMemory>
    ensures ok { OnOk result (into.new.items
        ≡ into.old.items ++ rows_text ((codes "end" ∷ decimal count ∷ []) ∷ [])) }
    ensures err { OnErr result (into.new.items ≡ into.old.items) }
{
    put_number(alloc, b"end", count, into)
}
