//! The line that sums a lottery up: how large it is, what is expected of each column, its weights,
//! and whether it has prices. How a lottery is found is not known here.
//!
//! ```text
//! let text = b"lottery,1\ndenominator,1\nagents,Ada\nobjects,oak\nrow,Ada,1\n\
//!     piece,1,1\ngive,Ada,oak,1\nend,1\n";
//! let lottery = read_lottery(alloc, text)?;
//! let line = summary(alloc, &lottery)?;
//! assert_eq!(rt; line.as_slice(), b"{\"agents\":1,\"columns\":1,\"denominator\":\"1\",\
//!     \"expected\":{\"oak\":\"1\"},\"greatest_weight\":\"1\",\"least_weight\":\"1\",\
//!     \"pieces\":1,\"priced\":false}\n".as_slice());
//! ```
#![tactic(auto)]

ghost use Rattle.std.specs.Prelude.{◌≡◌, length, IfOk};
ghost use Rattle.alloc_report.specs.Summary.{summary_text};
ghost use Rattle.lottery_file.specs.Lotteries.{lottery_value};

mod laws;
mod members;
mod numbers;

pub use laws::{expected_of_columns, greatest_and_least};
use lottery_file::Lottery;
use members::summary_of;
use quota_sets::NoMemory;
use std::alloc::Global;

/// The summary of a lottery: one line of compact JSON and a line feed.
///
/// Its keys, in order: `agents` and `columns`, how many there are; `denominator`; `expected`, from
/// each column's name, in byte order, to the sum of its units over all agents; `greatest_weight`
/// and `least_weight` of the pieces, 0 where there is none; `pieces`, how many there are; and
/// `priced`, whether there are prices. Units, weights and the denominator are written as strings,
/// since they may be too large for a JSON number.
pub fn summary(alloc: Global, lottery: &Lottery) -> Result<Vec<u8>, NoMemory>
    requires rows { lottery.now.shares.agents ≡ length lottery.now.agents }
    requires columns { lottery.now.shares.columns ≡ length lottery.now.columns }
    ensures { IfOk result (λ text. text.items ≡ summary_text (lottery_value lottery.now)) }
{
    let mut line = summary_of(alloc, lottery)?.to_string(alloc)?;
    line.push('\n')?;
    Ok(line.into_bytes())
}
