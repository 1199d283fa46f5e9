// The pieces of a lottery, appended one by one or put all together.
ghost use Rattle.std.specs.Prelude.{◌≡◌, ◌*◌, ◌<◌, ◌++◌, ◌∷◌, [], length, map, OnOk};
ghost use Rattle.definitions.specs.Gives.{gives_of, gives_along};
ghost use Rattle.definitions.specs.Values.{piece_value};
ghost use Rattle.table_text.specs.Rows.{rows_text};
ghost use Rattle.lottery_file.specs.Buffers.{Puts};
ghost use Rattle.lottery_file.specs.Written.{give_row, piece_rows, pieces_rows, piece_text};

use crate::puts::put_made;
use crate::rows::row_of_give;
use device_core::{Sink, SinkFault};
use quota_sets::{Give, Names, Piece};
use std::alloc::Global;
use table_text::{NoMemory, put_two, row_bytes, row_of_two};

// Appends the give of a count, where it isn't 0.
#[tactic(auto, unfolding(definitions::specs::Gives::gives_along))]
fn add_count(
    alloc: Global,
    agents: &Names,
    columns: &Names,
    cell: usize,
    count: u32,
    into: &mut Vec<u8>,
) -> Result<(), NoMemory>
    requires { cell < length agents.now * length columns.now }
    ensures { OnOk result (into.new.items ≡ into.old.items
        ++ rows_text (map (give_row agents.now columns.now)
        (gives_along (length columns.now) cell (count ∷ [])))) }
{
    if count == 0 {
        return Ok(());
    }
    let _agents = agents.len();
    let width = columns.len() as usize;
    let give = Give {
        agent: (cell / width) as u32,
        object: (cell % width) as u32,
        count,
    };
    let row = row_of_give(alloc, agents, columns, give)?;
    row_bytes(&row, into)
}

// Appends the gives of counts, one for each cell, row by row.
fn add_gives(
    alloc: Global,
    agents: &Names,
    columns: &Names,
    counts: &[u32],
    into: &mut Vec<u8>,
) -> Result<(), NoMemory>
    requires { length counts.now ≡ length agents.now * length columns.now }
    ensures { OnOk result (into.new.items ≡ into.old.items
        ++ rows_text (map (give_row agents.now columns.now)
        (gives_of (length columns.now) counts.now))) }
{
    for (cell, count) in counts.iter().enumerate() {
        add_count(alloc, agents, columns, cell, *count, into)?;
    }
    Ok(())
}

// Appends a piece.
#[tactic(auto, unfolding(crate::specs::Written::piece_rows))]
pub(crate) fn add_piece(
    alloc: Global,
    agents: &Names,
    columns: &Names,
    number: u64,
    weight: u128,
    counts: &[u32],
    into: &mut Vec<u8>,
) -> Result<(), NoMemory>
    requires { length counts.now ≡ length agents.now * length columns.now }
    ensures { OnOk result (into.new.items ≡ into.old.items
        ++ piece_text agents.now columns.now number weight counts.now) }
{
    put_two(alloc, b"piece", number as u128, weight, into)?;
    add_gives(alloc, agents, columns, counts, into)
}

// Puts the gives of a piece.
fn put_gives<K: Sink>(
    alloc: Global,
    agents: &Names,
    columns: &Names,
    gives: &[Give],
    buffer: &mut Vec<u8>,
    out: &mut K,
) -> Result<(), SinkFault>
    ensures { Puts K.written K.flushed K.faults K.short out.old out.new
        buffer.old.items buffer.new.items
        (rows_text (map (give_row agents.now columns.now) gives.now)) result }
{
    for give in gives {
        let row = row_of_give(alloc, agents, columns, *give);
        put_made(row, buffer, out)?;
    }
    Ok(())
}

// Puts a piece.
fn put_piece<K: Sink>(
    alloc: Global,
    agents: &Names,
    columns: &Names,
    number: u128,
    piece: &Piece,
    buffer: &mut Vec<u8>,
    out: &mut K,
) -> Result<(), SinkFault>
    ensures { Puts K.written K.flushed K.faults K.short out.old out.new
        buffer.old.items buffer.new.items
        (rows_text (piece_rows agents.now columns.now number (piece_value piece.now))) result }
{
    let row = row_of_two(alloc, b"piece", number, piece.weight);
    put_made(row, buffer, out)?;
    put_gives(alloc, agents, columns, &piece.gives, buffer, out)
}

// Puts all pieces.
pub(crate) fn put_pieces<K: Sink>(
    alloc: Global,
    agents: &Names,
    columns: &Names,
    pieces: &[Piece],
    buffer: &mut Vec<u8>,
    out: &mut K,
) -> Result<(), SinkFault>
    ensures { Puts K.written K.flushed K.faults K.short out.old out.new
        buffer.old.items buffer.new.items
        (rows_text (pieces_rows agents.now columns.now 1 (map piece_value pieces.now))) result }
{
    for (i, piece) in pieces.iter().enumerate() {
        put_piece(alloc, agents, columns, i as u128 + 1, piece, buffer, out)?;
    }
    Ok(())
}
