//! All records of a text, in hand. What the fields say is not known here.

ghost use Rattle.std.specs.Prelude.{◌≡◌, ◌==◌, ◌+◌, ◌<◌, [], length, slice_index_or, IfOk};
ghost use Rattle.table_text.specs.Rows.{IsTextOf};

use crate::reading::RecordReader;
use crate::row::{NoMemory, Row};
use std::alloc::Global;
use std::marker::Model;

/// The records of a text, in order.
#[derive(Drop)]
pub struct Rows {
    rows: Vec<Row>,
}

impl Model for Rows {
    ghost use Rattle.std.specs.Prelude.{List, ℕ};

    ghost Value = { List (List (List ℕ)) };

    ghost view = { λ r. r.rows.items };
}

impl Rows {
    /// How many records there are, those without fields among them.
    pub fn len(&self) -> usize
        ensures { result ≡ length self.now }
    {
        self.rows.len()
    }

    /// Whether there is no record.
    pub fn is_empty(&self) -> bool
        ensures { result ≡ (length self.now == 0) }
    {
        self.rows.is_empty()
    }

    /// The number of the record after the last, where records are counted from 1.
    pub fn next_number(&self) -> u64
        ensures { result ≡ length self.now + 1 }
    {
        self.rows.len() as u64 + 1
    }

    /// The record at an index, from 0.
    pub fn at(&self, index: usize) -> &Row
        requires { index < length self.now }
        ensures { result.now ≡ slice_index_or self.now index [] }
    {
        &self.rows[index]
    }
}

/// The records of a text, in their order; see `RecordReader` for what they are.
pub fn records(alloc: Global, bytes: &[u8]) -> Result<Rows, NoMemory>
    ensures { IfOk result (IsTextOf bytes.now) }
{
    let mut reader = RecordReader::new(alloc, bytes);
    let mut rows = Vec::new(alloc);
    loop {
        let mut row = Row::new(alloc);
        if !reader.read(&mut row)? {
            return Ok(Rows { rows });
        }
        rows.push(row)?;
    }
}
