//! Lotteries written: the head, each piece and the end apart, or a lottery whole.

ghost use Rattle.std.specs.Prelude.{◌≡◌, ◌*◌, ◌∷◌, [], length, option_map};
ghost use Rattle.definitions.specs.Values.{prices_value};
ghost use Rattle.device_core.specs.Told.{Appended};
ghost use Rattle.device_core.specs.Counts.{WriterCounts};
ghost use Rattle.table_text.specs.Rows.{rows_text};
ghost use Rattle.lottery_file.specs.Buffers.{Puts};
ghost use Rattle.lottery_file.specs.Lotteries.{lists_value, lottery_value};
ghost use Rattle.lottery_file.specs.Written.{head_rows, end_row, piece_text, lottery_text, ShapesAgree, CanBeWritten};

use crate::Lottery;
use crate::body::{add_piece, put_pieces};
use crate::head::put_head;
use crate::puts::put_made;
use device_core::{Sink, SinkFault};
use quota_sets::{Names, Prices, Scaled};
use std::alloc::Global;
use table_text::{put_end, row_of_number};

/// Writes the records of a lottery before its first piece: version, denominator, names, rows, and
/// where there are prices these and the worths of all lists.
///
/// After a refusal a front of that text was appended. `Failed` comes only where the sink's count of
/// faults rose.
pub fn write_head<K: Sink>(
    alloc: Global,
    agents: &Names,
    columns: &Names,
    shares: &Scaled,
    lists: &[Vec<u32>],
    prices: Option<&Prices>,
    out: &mut K,
) -> Result<(), SinkFault>
    requires { ShapesAgree agents.now columns.now shares.now
        (lists_value lists.now) (option_map (λ y. prices_value y.now) prices) }
    ensures bytes { Appended (K.written out.old) (K.written out.new)
        (rows_text (head_rows agents.now columns.now shares.now
        (lists_value lists.now) (option_map (λ y. prices_value y.now) prices.entry))) result }
    ensures flushed { K.flushed out.new ≡ K.flushed out.old }
    ensures cause { WriterCounts (K.faults out.old) (K.faults out.new)
        (K.short out.old) (K.short out.new) result }
{
    let mut buffer = Vec::new(alloc);
    put_head(
        alloc,
        agents,
        columns,
        shares,
        lists,
        prices,
        &mut buffer,
        out,
    )?;
    out.write(&buffer)
}

/// Writes a piece, which has this number from 1: its record, then its gives by agent and column.
/// `counts` has one entry for each cell, row by row. The whole piece is one write.
///
/// After a refusal a front of that text was appended. `Failed` comes only where the sink's count of
/// faults rose.
pub fn write_piece<K: Sink>(
    alloc: Global,
    agents: &Names,
    columns: &Names,
    number: u64,
    weight: u128,
    counts: &[u32],
    out: &mut K,
) -> Result<(), SinkFault>
    requires { length counts.now ≡ length agents.now * length columns.now }
    ensures bytes { Appended (K.written out.old) (K.written out.new)
        (piece_text agents.now columns.now number weight counts.now) result }
    ensures flushed { K.flushed out.new ≡ K.flushed out.old }
    ensures cause { WriterCounts (K.faults out.old) (K.faults out.new)
        (K.short out.old) (K.short out.new) result }
{
    let mut text = Vec::new(alloc);
    add_piece(alloc, agents, columns, number, weight, counts, &mut text).map_err(
        |_| SinkFault::NoMemory,
    )?;
    out.write(&text)
}

/// Writes the record at the end of a lottery, which has so many pieces.
///
/// After a refusal a front of that text was appended. `Failed` comes only where the sink's count of
/// faults rose.
#[tactic(auto, unfolding(crate::specs::Written::end_row))]
pub fn write_end<K: Sink>(alloc: Global, pieces: u64, out: &mut K) -> Result<(), SinkFault>
    ensures bytes { Appended (K.written out.old) (K.written out.new)
        (rows_text (end_row pieces ∷ [])) result }
    ensures flushed { K.flushed out.new ≡ K.flushed out.old }
    ensures cause { WriterCounts (K.faults out.old) (K.faults out.new)
        (K.short out.old) (K.short out.new) result }
{
    let mut end = Vec::new(alloc);
    put_end(alloc, pieces as u128, &mut end).map_err(|_| SinkFault::NoMemory)?;
    out.write(&end)
}

// Puts a lottery whole.
fn put_lottery<K: Sink>(
    alloc: Global,
    lottery: &Lottery,
    buffer: &mut Vec<u8>,
    out: &mut K,
) -> Result<(), SinkFault>
    requires { CanBeWritten (lottery_value lottery.now) }
    ensures { Puts K.written K.flushed K.faults K.short out.old out.new
        buffer.old.items buffer.new.items
        (lottery_text (lottery_value lottery.now)) result }
{
    let agents = &lottery.agents;
    let columns = &lottery.columns;
    let prices = lottery.prices.as_ref();
    put_head(
        alloc,
        agents,
        columns,
        &lottery.shares,
        &lottery.lists,
        prices,
        buffer,
        out,
    )?;
    let pieces = lottery.pieces.list.as_slice();
    put_pieces(alloc, agents, columns, pieces, buffer, out)?;
    let row = row_of_number(alloc, b"end", pieces.len() as u128);
    put_made(row, buffer, out)
}

/// Writes a lottery: its head, its pieces from number 1 on, and its end.
///
/// After a refusal a front of that text was appended. `Failed` comes only where the sink's count of
/// faults rose.
pub fn write_lottery<K: Sink>(
    alloc: Global,
    lottery: &Lottery,
    out: &mut K,
) -> Result<(), SinkFault>
    requires { CanBeWritten (lottery_value lottery.now) }
    ensures bytes { Appended (K.written out.old) (K.written out.new)
        (lottery_text (lottery_value lottery.now)) result }
    ensures flushed { K.flushed out.new ≡ K.flushed out.old }
    ensures cause { WriterCounts (K.faults out.old) (K.faults out.new)
        (K.short out.old) (K.short out.new) result }
{
    let mut buffer = Vec::new(alloc);
    put_lottery(alloc, lottery, &mut buffer, out)?;
    out.write(&buffer)
}
