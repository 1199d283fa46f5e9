//! One record: its fields, each of any bytes. Which fields a text or a command wants is not known
//! here.

ghost use Rattle.std.specs.Prelude.{◌≡◌, ◌==◌, ◌<◌, ◌++◌, ◌∷◌, [], length, slice_index_or, IfOk, OnOk, OnErr};
ghost use Rattle.std.specs.Fmt.{decimal};
ghost use Rattle.std.specs.List.{list_all};
ghost use Rattle.std.specs.Str.{is_utf8};
ghost use Rattle.csv.specs.Records.{prev};
ghost use Rattle.definitions.specs.Texts.{field};

use crate::numbers::digits;
use std::alloc::{AllocError, AllocFailed, Global};
use std::marker::Model;

/// Memory ran out.
#[derive(Debug, Drop)]
pub struct NoMemory;

impl From<AllocError> for NoMemory {
    fn from(_: AllocError) -> NoMemory {
        NoMemory
    }
}

impl<T: Drop> From<AllocFailed<T>> for NoMemory {
    fn from(_: AllocFailed<T>) -> NoMemory {
        NoMemory
    }
}

/// The fields of a record, each of any bytes.
#[derive(Drop)]
pub struct Row {
    // The fields' bytes, one field after the other.
    bytes: Vec<u8>,
    // Where each field ends in `bytes`.
    ends: Vec<usize>,
}

impl Model for Row {
    ghost use Rattle.std.specs.Prelude.{◌≡◌, List, ℕ, length};
    ghost use Rattle.csv.specs.Records.{cut_from, last_end, Rising};

    ghost Value = { List (List ℕ) };

    ghost view = { λ r. cut_from 0 r.ends.items r.bytes.items };

    ghost invariant = { λ r. Rising 0 r.ends.items (length r.bytes.items)
        × (last_end 0 r.ends.items ≡ length r.bytes.items) };
}

impl Row {
    /// The row without fields.
    pub fn new(alloc: Global) -> Row
        ensures { result ≡ [] }
    {
        Row {
            bytes: Vec::new(alloc),
            ends: Vec::new(alloc),
        }
    }

    /// Takes all fields away, and keeps the room that they had.
    pub fn clear(&mut self)
        ensures { self.new ≡ [] }
    {
        self.bytes.clear();
        self.ends.clear();
    }

    /// Adds a copy of a field as the last one. After `NoMemory` the row is as before.
    pub fn push(&mut self, field: &[u8]) -> Result<(), NoMemory>
        ensures ok { OnOk result (self.new ≡ self.old ++ field.now ∷ []) }
        ensures err { OnErr result (self.new ≡ self.old) }
    {
        let start = self.bytes.len();
        self.bytes.extend_from_slice(field)?;
        let end = self.bytes.len();
        if self.ends.push(end).is_err() {
            self.bytes.truncate(start);
            return Err(NoMemory);
        }
        Ok(())
    }

    /// Adds the shortest decimal text of a number as the last field. After `NoMemory` the row is as
    /// before.
    pub fn push_number(&mut self, number: u128) -> Result<(), NoMemory>
        ensures ok { OnOk result (self.new ≡ self.old ++ decimal number ∷ []) }
        ensures err { OnErr result (self.new ≡ self.old) }
    {
        let mut text = [0u8; 39];
        let length = digits(number, &mut text);
        self.push(&text[..length])
    }

    /// How many fields there are.
    pub fn len(&self) -> usize
        ensures { result ≡ length self.now }
    {
        self.ends.len()
    }

    /// Whether there is no field.
    pub fn is_empty(&self) -> bool
        ensures { result ≡ (length self.now == 0) }
    {
        self.ends.is_empty()
    }

    /// The bytes of the field at an index, from 0.
    pub fn field(&self, index: usize) -> &[u8]
        requires { index < length self.now }
        ensures { result.now ≡ slice_index_or self.now index [] }
    {
        let start = start_of(self.ends.as_slice(), index);
        &self.bytes.as_slice()[start..self.ends[index]]
    }

    /// The bytes of the field at an index, from 0, and none past the last field.
    pub fn field_at(&self, index: usize) -> &[u8]
        ensures { result.now ≡ field self.now index }
    {
        if index < self.len() {
            self.field(index)
        } else {
            b"".as_slice()
        }
    }

    /// Whether each field is UTF-8.
    pub fn is_text(&self) -> bool
        ensures { result ≡ list_all is_utf8 self.now }
    {
        for i in 0..self.len() {
            if !is_text_field(self.field(i)) {
                return false;
            }
        }
        true
    }
}

// Where the field at an index starts, by where each field ends.
fn start_of(ends: &[usize], index: usize) -> usize
    requires { index < length ends.now }
    ensures { result ≡ prev 0 ends.now index }
{
    if index == 0 { 0 } else { ends[index - 1] }
}

fn is_text_field(field: &[u8]) -> bool
    ensures { result ≡ is_utf8 field.now }
{
    std::str::from_utf8(field).is_ok()
}
