// The records before the first piece, put one after the other. Of pieces nothing is known here.
ghost use Rattle.std.specs.Prelude.{◌≡◌, ◌∷◌, [], codes, length, map, option_map};
ghost use Rattle.std.specs.Fmt.{decimal};
ghost use Rattle.definitions.specs.Values.{prices_value};
ghost use Rattle.table_text.specs.Rows.{rows_text};
ghost use Rattle.lottery_file.specs.Buffers.{Puts};
ghost use Rattle.lottery_file.specs.Lotteries.{lists_value};
ghost use Rattle.lottery_file.specs.Written.{head_rows, name_rows, share_rows, price_rows, place_rows, worth_rows, priced_rows, AreListed, ShapesAgree};

use crate::puts::put_made;
use crate::rows::{row_of_names, row_of_units, row_of_worth};
use device_core::{Sink, SinkFault};
use quota_sets::{Names, Prices, Scaled};
use std::alloc::Global;
use table_text::{row_of_number, row_of_two, row_of_words};

// Puts the version, the denominator and the names.
fn put_names<K: Sink>(
    alloc: Global,
    denominator: u128,
    agents: &Names,
    columns: &Names,
    buffer: &mut Vec<u8>,
    out: &mut K,
) -> Result<(), SinkFault>
    ensures { Puts K.written K.flushed K.faults K.short out.old out.new
        buffer.old.items buffer.new.items
        (rows_text (name_rows denominator agents.now columns.now)) result }
{
    put_made(row_of_words(alloc, b"lottery", b"1"), buffer, out)?;
    let row = row_of_number(alloc, b"denominator", denominator);
    put_made(row, buffer, out)?;
    let row = row_of_names(alloc, b"agents", agents);
    put_made(row, buffer, out)?;
    put_made(row_of_names(alloc, b"objects", columns), buffer, out)
}

// Puts the units of each agent.
fn put_shares<K: Sink>(
    alloc: Global,
    agents: &Names,
    shares: &Scaled,
    buffer: &mut Vec<u8>,
    out: &mut K,
) -> Result<(), SinkFault>
    requires { shares.now.agents ≡ length agents.now }
    ensures { Puts K.written K.flushed K.faults K.short out.old out.new
        buffer.old.items buffer.new.items
        (rows_text (share_rows agents.now shares.now.columns shares.now.units)) result }
{
    for agent in 0..shares.agents() {
        let row = row_of_units(alloc, agents.name_at(agent), agent, shares);
        put_made(row, buffer, out)?;
    }
    Ok(())
}

// Puts the price of each set.
fn put_prices<K: Sink>(
    alloc: Global,
    prices: &[u64],
    buffer: &mut Vec<u8>,
    out: &mut K,
) -> Result<(), SinkFault>
    ensures { Puts K.written K.flushed K.faults K.short out.old out.new
        buffer.old.items buffer.new.items
        (rows_text (price_rows 1 prices.now)) result }
{
    for (i, price) in prices.iter().enumerate() {
        let row = row_of_two(alloc, b"price", i as u128 + 1, *price as u128);
        put_made(row, buffer, out)?;
    }
    Ok(())
}

// Puts the worth of each place of an agent's list.
fn put_places<K: Sink>(
    alloc: Global,
    agent: &str,
    columns: &Names,
    list: &[u32],
    worths: &[i64],
    buffer: &mut Vec<u8>,
    out: &mut K,
) -> Result<(), SinkFault>
    requires { length worths.now ≡ length list.now }
    ensures { Puts K.written K.flushed K.faults K.short out.old out.new
        buffer.old.items buffer.new.items
        (rows_text (place_rows agent.now columns.now list.now worths.now)) result }
{
    for i in 0..list.len() {
        let row = row_of_worth(alloc, agent, columns.name_at(list[i]), worths[i]);
        put_made(row, buffer, out)?;
    }
    Ok(())
}

// Puts the worths of each agent's list.
fn put_worths<K: Sink>(
    alloc: Global,
    agents: &Names,
    columns: &Names,
    lists: &[Vec<u32>],
    worths: &[Vec<i64>],
    buffer: &mut Vec<u8>,
    out: &mut K,
) -> Result<(), SinkFault>
    requires { AreListed (length agents.now)
        (lists_value lists.now) (map (λ w. w.items) worths.now) }
    ensures { Puts K.written K.flushed K.faults K.short out.old out.new
        buffer.old.items buffer.new.items
        (rows_text (worth_rows agents.now columns.now
        (lists_value lists.now) (map (λ w. w.items) worths.now))) result }
{
    for i in 0..agents.len() {
        let list = &lists[i as usize];
        let worth = &worths[i as usize];
        put_places(alloc, agents.name_at(i), columns, list, worth, buffer, out)?;
    }
    Ok(())
}

// Puts prices and worths.
fn put_priced<K: Sink>(
    alloc: Global,
    agents: &Names,
    columns: &Names,
    lists: &[Vec<u32>],
    prices: &Prices,
    buffer: &mut Vec<u8>,
    out: &mut K,
) -> Result<(), SinkFault>
    requires { AreListed (length agents.now)
        (lists_value lists.now) (prices_value prices.now).worth }
    ensures { Puts K.written K.flushed K.faults K.short out.old out.new
        buffer.old.items buffer.new.items
        (rows_text (priced_rows agents.now columns.now
        (lists_value lists.now) (Some (prices_value prices.now)))) result }
{
    put_prices(alloc, &prices.price, buffer, out)?;
    put_worths(alloc, agents, columns, lists, &prices.worth, buffer, out)
}

// Puts the records before the first piece.
pub(crate) fn put_head<K: Sink>(
    alloc: Global,
    agents: &Names,
    columns: &Names,
    shares: &Scaled,
    lists: &[Vec<u32>],
    prices: Option<&Prices>,
    buffer: &mut Vec<u8>,
    out: &mut K,
) -> Result<(), SinkFault>
    requires { ShapesAgree agents.now columns.now shares.now
        (lists_value lists.now) (option_map (λ y. prices_value y.now) prices) }
    ensures { Puts K.written K.flushed K.faults K.short out.old out.new
        buffer.old.items buffer.new.items
        (rows_text (head_rows agents.now columns.now shares.now
        (lists_value lists.now) (option_map (λ y. prices_value y.now) prices.entry))) result }
{
    let denominator = shares.denominator();
    put_names(alloc, denominator, agents, columns, buffer, out)?;
    put_shares(alloc, agents, shares, buffer, out)?;
    match prices {
        Some(prices) => put_priced(alloc, agents, columns, lists, prices, buffer, out),
        None => Ok(()),
    }
}
