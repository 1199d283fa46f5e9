//! Lotteries as text: `read_lottery` reads one, with the exact first fault of a text that isn't
//! one; `write_lottery` writes one, as do `write_head`, `write_piece` and `write_end` one after the
//! other. What is written of a lawful lottery reads back as that lottery. How a lottery is found or
//! drawn from is not known here.
//!
//! ```text
//! let text = b"lottery,1\ndenominator,1\nagents,Ada\nobjects,oak\nrow,Ada,1\n\
//!     piece,1,1\ngive,Ada,oak,1\nend,1\n";
//! let lottery = read_lottery(alloc, text)?;
//! let (agents, columns) = (&lottery.agents, &lottery.columns);
//!
//! // The same text by its parts: the head, a piece by its count at each cell, and the end.
//! let mut out = SureSink::new(alloc);
//! write_head(alloc, agents, columns, &lottery.shares, &[], None, &mut out)?;
//! write_piece(alloc, agents, columns, 1, 1, &[1], &mut out)?;
//! write_end(alloc, 1, &mut out)?;
//! assert_eq!(rt; out.bytes(), text.as_slice());
//! ```
#![tactic(auto)]

ghost use Rattle.std.specs.Prelude.{IfErr, IfOk};
ghost use Rattle.lottery_file.specs.Lotteries.{lottery_value, TextReadsAs, RefusedFor, IsLawfulLottery};

mod body;
mod checks;
mod faults;
mod fields;
mod head;
mod laws;
mod puts;
mod reading;
mod records;
mod rows;
mod state;
mod totals;
mod words;
mod writers;

pub use faults::{LotteryFault, LotteryKind, LotteryRefusal};
pub use laws::{
    first_fault, gives_come_back, lawful_shapes_agree, parts_write_the_text, readings_are_lawful,
    splits_are_lawful, text_reads_once, what_records_say, written_lottery_reads_back,
};
use quota_sets::{Names, Pieces, Prices, Scaled};
use reading::{finished, read_records};
pub use rows::row_of_give;
use std::alloc::Global;
use table_text::RecordReader;
pub use writers::{write_end, write_head, write_lottery, write_piece};

/// A lottery as its text says it: the names, the expected assignment in units of a denominator, the
/// lists and prices where it has a column `none`, and the pieces.
#[derive(Debug, Drop)]
pub struct Lottery {
    /// The agents, at most 1,000.
    pub agents: Names,
    /// The columns: at most 200 objects, then `none` where the lottery has prices.
    pub columns: Names,
    /// One row for each agent, one column for each column, over the lottery's denominator.
    pub shares: Scaled,
    /// For each agent the columns in its order, with `none` last; empty without prices.
    pub lists: Vec<Vec<u32>>,
    /// Prices by set and worths by agent and place, exactly where the last column is `none`.
    pub prices: Option<Prices>,
    /// The pieces; their weights are at least 1 and add up to the denominator.
    pub pieces: Pieces,
}

/// Reads a lottery of version 1.
///
/// `Fault` is the first unlawful record of the text with the first of its checks that fails, or
/// `CutOff` at the number of records plus 1 where all are lawful and the last isn't `end`.
/// `NoMemory` can come at any text.
pub fn read_lottery(alloc: Global, bytes: &[u8]) -> Result<Lottery, LotteryRefusal>
    ensures value { IfOk result (λ l. TextReadsAs bytes.now (lottery_value l)) }
    ensures lawful { IfOk result (λ l. IsLawfulLottery (lottery_value l)) }
    ensures fault { IfErr result (RefusedFor bytes.now) }
{
    let mut reader = RecordReader::new(alloc, bytes);
    let state = read_records(alloc, &mut reader)?;
    Ok(finished(state))
}
