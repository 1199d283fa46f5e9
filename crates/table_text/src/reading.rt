//! The records of a text, one after another. What the fields say is not known here.

ghost use Rattle.std.specs.Prelude.{◌≡◌, ◌==◌, ◌+◌, ◌<◌, ◌≤◌, ◌∷◌, [], length, true, false, slice_index, IfOk, OnOk, Ok};
ghost use Rattle.csv.specs.Reading.{error_kind, is_bom, stops_reader, strip_bom};
ghost use Rattle.csv.specs.Records.{fields_of};
ghost use Rattle.table_text.specs.Reading.{rows_left, ReadsPlainly};
ghost use Rattle.table_text.specs.Rows.{kept_count, kept_fields, IsTextOf};

use crate::row::{NoMemory, Row};
use csv::{ByteRecord, Error, ErrorKind, Reader, ReaderBuilder};
use std::alloc::Global;
use std::marker::Model;

/// The records of a text that are still to be read.
///
/// They are those that `csv` reads with commas, double quotes, no header row and records of any
/// length, after one byte order mark is left off; `csv` leaves off one more, and skips blank lines.
/// The empty fields at the end of a record are left off; a record that has no others is a row
/// without fields.
#[derive(Drop)]
pub struct RecordReader<'a> {
    reader: Reader<&'a [u8]>,
    // The fields of the record that was read last, as `csv` has them.
    fields: ByteRecord,
    is_ended: bool,
}

impl<'a> Model for RecordReader<'a> {
    ghost use Rattle.std.specs.Prelude.{◌≡◌, List, ℕ, [], false, if◌then◌else◌};
    ghost use Rattle.table_text.specs.Reading.{rows_left, ReadsPlainly};

    ghost Value = { List (List (List ℕ)) };

    ghost view = { λ r. if r.is_ended then [] else rows_left r.reader };

    ghost invariant = { λ r. r.is_ended ≡ false → ReadsPlainly r.reader };
}

impl<'a> RecordReader<'a> {
    /// All records of a text.
    pub fn new(alloc: Global, bytes: &'a [u8]) -> RecordReader<'a>
        ensures text { IsTextOf bytes.now result }
        ensures few { length result ≤ length bytes.now }
    {
        let reader = ReaderBuilder::new()
            .has_headers(false)
            .flexible(true)
            .from_reader(alloc, without_mark(bytes));
        let fields = ByteRecord::new(alloc);
        RecordReader {
            reader,
            fields,
            is_ended: false,
        }
    }

    /// Reads the next record into a row, in place of what the row holds, and says whether there was
    /// one. After `NoMemory` nothing is known of the row, nor of what is still to be read.
    pub fn read(&mut self, row: &mut Row) -> Result<bool, NoMemory>
        ensures more { result ≡ Ok true → self.old ≡ row.new ∷ self.new }
        ensures end { result ≡ Ok false → self.old ≡ [] }
    {
        if self.is_ended {
            return Ok(false);
        }
        self.is_ended = true;
        if !advance(&mut self.reader, &mut self.fields)? {
            return Ok(false);
        }
        self.is_ended = false;
        fill(&self.fields, row)?;
        Ok(true)
    }
}

// The next record of a reader that never failed, as `csv` has its fields.
fn advance(reader: &mut Reader<&[u8]>, fields: &mut ByteRecord) -> Result<bool, NoMemory>
    requires { ReadsPlainly reader.old }
    ensures on { result ≡ Ok true → ReadsPlainly reader.new }
    ensures more { result ≡ Ok true
        → rows_left reader.old ≡ kept_fields (fields_of fields.new) ∷ rows_left reader.new }
    ensures end { result ≡ Ok false → rows_left reader.old ≡ [] }
{
    match reader.read_byte_record(fields) {
        Ok(found) => Ok(found),
        Err(cause) => Err(unread(cause)),
    }
}

// What a record is not read for. A read from memory never fails, so it is want of memory.
fn unread(cause: Error) -> NoMemory
    requires { stops_reader (error_kind cause) ≡ true }
{
    match cause.into_kind() {
        ErrorKind::OutOfMemory | ErrorKind::Io(_) => NoMemory,
        _ => unreachable!(),
    }
}

// Makes a row of the fields of a record, without the empty ones at the end.
fn fill(fields: &ByteRecord, row: &mut Row) -> Result<(), NoMemory>
    ensures { OnOk result (row.new ≡ kept_fields (fields_of fields.now)) }
{
    row.clear();
    for i in 0..count_kept(fields) {
        let Some(field) = fields.get(i) else {
            unreachable!();
        };
        row.push(field)?;
    }
    Ok(())
}

// How many fields stand before the empty ones at the end.
fn count_kept(fields: &ByteRecord) -> usize
    ensures value { result ≡ kept_count (fields_of fields.now) }
    ensures within { result ≤ length (fields_of fields.now) }
{
    let mut count = 0;
    for i in 0..fields.len() {
        match fields.get(i) {
            Some(field) => {
                if !field.is_empty() {
                    count = i + 1;
                }
            }
            None => {}
        }
    }
    count
}

// The bytes after one byte order mark, if there is one.
fn without_mark(bytes: &[u8]) -> &[u8]
    ensures { result.now ≡ strip_bom bytes.now }
{
    if bytes.len() < 3 {
        return bytes;
    }
    if begins_with_mark(bytes) {
        return &bytes[3..];
    }
    bytes
}

fn begins_with_mark(bytes: &[u8]) -> bool
    requires { 3 ≤ length bytes.now }
    ensures { result
        ≡ is_bom (slice_index bytes.now 0) (slice_index bytes.now 1) (slice_index bytes.now 2) }
{
    bytes[0] == 0xEF && bytes[1] == 0xBB && bytes[2] == 0xBF
}
