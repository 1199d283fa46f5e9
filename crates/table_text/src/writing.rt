//! The text of a record. It knows no kind of record.

ghost use Rattle.std.specs.Prelude.{◌≡◌, ◌<◌, ◌++◌, ◌∷◌, [], length, take, if◌then◌else◌, OnOk, OnErr};
ghost use Rattle.csv.specs.Writing.{default_writer, field_text, escaped, is_blank, needs_byte, needs_quotes, next_sep, quoted, row_text};

use crate::row::{NoMemory, Row};

/// Appends a record as `csv` writes it with its defaults: fields parted by commas, a line feed at
/// the end, and quotes where a field has a comma, a quote or an end of line, or is the only one
/// and empty. After `NoMemory` `into` is as before.
pub fn row_bytes(row: &Row, into: &mut Vec<u8>) -> Result<(), NoMemory>
    requires { 0 < length row.now }
    ensures ok { OnOk result (into.new.items ≡ into.old.items ++ row_text default_writer row.now) }
    ensures err { OnErr result (into.new.items ≡ into.old.items) }
{
    let start = into.len();
    if push_row(row, into).is_err() {
        into.truncate(start);
        return Err(NoMemory);
    }
    Ok(())
}

// Appends a record. What was there stays in front of it, also after a refusal.
fn push_row(row: &Row, into: &mut Vec<u8>) -> Result<(), NoMemory>
    requires { 0 < length row.now }
    ensures text { OnOk result (into.new.items ≡ into.old.items ++ row_text default_writer row.now) }
    ensures stays { take (length into.old.items) into.new.items ≡ into.old.items }
{
    for i in 0..row.len() {
        push_next(row.field(i), i, into)?;
    }
    push_end(shows_nothing(row), into)
}

// Whether a record would show no byte: its only field is empty.
fn shows_nothing(row: &Row) -> bool
    requires { 0 < length row.now }
    ensures { result ≡ is_blank default_writer row.now }
{
    if row.len() != 1 {
        return false;
    }
    row.field(0).is_empty()
}

// Appends the field at this place of a record, after a comma where it is not the first.
fn push_next(field: &[u8], place: usize, into: &mut Vec<u8>) -> Result<(), NoMemory>
    ensures text { OnOk result (into.new.items ≡ into.old.items ++ (next_sep default_writer place ++ field_text default_writer field.now)) }
    ensures stays { take (length into.old.items) into.new.items ≡ into.old.items }
{
    if place > 0 {
        push_byte(b',', into)?;
    }
    push_field(field, into)
}

// Appends the text of a field.
fn push_field(field: &[u8], into: &mut Vec<u8>) -> Result<(), NoMemory>
    ensures text { OnOk result (into.new.items ≡ into.old.items ++ field_text default_writer field.now) }
    ensures stays { take (length into.old.items) into.new.items ≡ into.old.items }
{
    if needs_quotes(field) {
        return push_quoted(field, into);
    }
    match into.extend_from_slice(field) {
        Ok(()) => Ok(()),
        Err(_) => Err(NoMemory),
    }
}

// Whether a field has a byte that calls for quotes.
fn needs_quotes(field: &[u8]) -> bool
    ensures { result ≡ needs_quotes default_writer field.now }
{
    field.iter().any(|byte| needs_byte(*byte))
}

fn needs_byte(byte: u8) -> bool
    ensures { result ≡ needs_byte default_writer byte }
{
    byte == b',' || byte == b'"' || byte == b'\r' || byte == b'\n'
}

// Appends a field between quotes, with each quote in it twice.
fn push_quoted(field: &[u8], into: &mut Vec<u8>) -> Result<(), NoMemory>
    ensures text { OnOk result (into.new.items ≡ into.old.items ++ quoted default_writer field.now) }
    ensures stays { take (length into.old.items) into.new.items ≡ into.old.items }
{
    push_byte(b'"', into)?;
    for byte in field {
        push_escaped(*byte, into)?;
    }
    push_byte(b'"', into)
}

// Appends a byte of a field between quotes.
fn push_escaped(byte: u8, into: &mut Vec<u8>) -> Result<(), NoMemory>
    ensures text { OnOk result (into.new.items ≡ into.old.items ++ escaped default_writer (byte ∷ [])) }
    ensures stays { take (length into.old.items) into.new.items ≡ into.old.items }
{
    if byte == b'"' {
        push_byte(b'"', into)?;
    }
    push_byte(byte, into)
}

// Ends a record, after two quotes where it has shown nothing.
fn push_end(blank: bool, into: &mut Vec<u8>) -> Result<(), NoMemory>
    ensures text { OnOk result (into.new.items ≡ into.old.items ++ ((if blank then 34 ∷ 34 ∷ [] else []) ++ 10 ∷ [])) }
    ensures stays { take (length into.old.items) into.new.items ≡ into.old.items }
{
    if blank {
        push_byte(b'"', into)?;
        push_byte(b'"', into)?;
    }
    push_byte(b'\n', into)
}

fn push_byte(byte: u8, into: &mut Vec<u8>) -> Result<(), NoMemory>
    ensures text { OnOk result (into.new.items ≡ into.old.items ++ byte ∷ []) }
    ensures stays { take (length into.old.items) into.new.items ≡ into.old.items }
{
    match into.push(byte) {
        Ok(()) => Ok(()),
        Err(_) => Err(NoMemory),
    }
}
