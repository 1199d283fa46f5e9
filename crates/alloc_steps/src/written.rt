//! The loop that writes a lottery while its pieces are peeled.

ghost use Rattle.std.specs.Prelude.{◌≡◌, ℕ, ◌*◌, List, length, option_map, IsSome, Some};
ghost use Rattle.definitions.specs.Peelings.{sets_of};
ghost use Rattle.definitions.specs.Values.{prices_value};
ghost use Rattle.device_core.specs.Continuing.{Continued, ContinuedCounts};
ghost use Rattle.device_core.specs.Counts.{WriterCounts};
ghost use Rattle.lottery_file.specs.Lotteries.{lists_value};
ghost use Rattle.lottery_file.specs.Written.{piece_text, ShapesAgree};
ghost use Rattle.peeling.specs.Peelers.{IsPeeler};
ghost use Rattle.alloc_steps.specs.Writing.{lottery_with, WritesPieces};

use crate::counts::fill_counts;
use device_core::{Sink, SinkFault};
use lottery_file::{write_end, write_head, write_piece};
use peeling::Peeler;
use quota_sets::{Names, Prices, Scaled};
use std::alloc::Global;

// Writes the piece last given, unless a writer before was refused: that refusal is handed on.
fn write_given<K: Sink>(
    alloc: Global,
    before: Result<(), SinkFault>,
    agents: &Names,
    columns: &Names,
    number: u64,
    weight: u128,
    peeler: &Peeler,
    counts: &mut [u32],
    out: &mut K,
) -> Result<(), SinkFault>
    requires given { IsSome peeler.now.piece }
    requires agents { peeler.now.agents ≡ length agents.now }
    requires columns { peeler.now.columns ≡ length columns.now }
    requires cells { length counts.old ≡ peeler.now.agents * peeler.now.columns }
    ensures bytes { (m : List ℕ) → peeler.now.piece ≡ Some m
        → Continued (K.written out.old) (K.written out.new)
        (piece_text agents.now columns.now number weight m) before result }
    ensures flushed { K.flushed out.new ≡ K.flushed out.old }
    ensures cause { ContinuedCounts (K.faults out.old) (K.faults out.new)
        (K.short out.old) (K.short out.new) before result }
{
    before?;
    fill_counts(peeler, counts);
    write_piece(alloc, agents, columns, number, weight, counts, out)
}

/// Writes a lottery with these names, shares, lists and prices, whose pieces are those that the
/// peeler is still to give: each is written as it comes, by one write. `counts` has one entry for
/// each cell, and is written over.
///
/// After a refusal the pieces are still peeled, so that there is a lottery, and nothing more is
/// written: a front of its text was. `Failed` comes only where the sink's count of faults rose.
pub fn write_peeled<K: Sink>(
    alloc: Global,
    agents: &Names,
    columns: &Names,
    shares: &Scaled,
    lists: &[Vec<u32>],
    prices: Option<&Prices>,
    peeler: &mut Peeler,
    counts: &mut [u32],
    out: &mut K,
) -> Result<(), SinkFault>
    requires lawful { IsPeeler peeler.old }
    requires agents { peeler.old.agents ≡ length agents.now }
    requires columns { peeler.old.columns ≡ length columns.now }
    requires cells { length counts.old ≡ peeler.old.agents * peeler.old.columns }
    requires shapes { ShapesAgree agents.now columns.now shares.now
        (lists_value lists.now) (option_map (λ y. prices_value y.now) prices) }
    ensures pieces { WritesPieces
        peeler.old.columns (sets_of peeler.old) peeler.old.rest peeler.old.left
        (lottery_with agents.now columns.now shares.now
        (lists_value lists.now) (option_map (λ y. prices_value y.now) prices.entry))
        (K.written out.old) (K.written out.new) result }
    ensures flushed { K.flushed out.new ≡ K.flushed out.old }
    ensures cause { WriterCounts (K.faults out.old) (K.faults out.new)
        (K.short out.old) (K.short out.new) result }
{
    let mut state = write_head(alloc, agents, columns, shares, lists, prices, out);
    let mut number: u64 = 0;
    while let Some(weight) = peeler.next() {
        number += 1;
        state = write_given(
            alloc, state, agents, columns, number, weight, peeler, counts, out,
        );
    }
    state?;
    write_end(alloc, number, out)
}
