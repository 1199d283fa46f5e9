// The numbers of the summary.

ghost use Rattle.std.specs.Prelude.{◌≡◌, ◌<◌, length, map};
ghost use Rattle.alloc_report.specs.Summary.{column_units, greatest_of, least_of};
ghost use Rattle.lottery_file.specs.Lotteries.{lottery_value};

use lottery_file::Lottery;
use quota_sets::{Cell, Piece};

/// The sum of a column's units over all agents.
pub fn units_in(lottery: &Lottery, column: u32) -> u128
    requires rows { lottery.now.shares.agents ≡ length lottery.now.agents }
    requires column { column < lottery.now.shares.columns }
    ensures { result ≡ column_units (lottery_value lottery.now) column }
{
    let mut sum = 0;
    for agent in 0..lottery.agents.len() {
        let cell = Cell {
            agent,
            object: column,
        };
        sum += lottery.shares.at(cell);
    }
    sum
}

/// The greatest weight of some pieces, 0 where there is none.
pub fn greatest_weight(pieces: &[Piece]) -> u128
    ensures { result ≡ greatest_of (map (λ p. p.weight) pieces.now) }
{
    pieces
        .iter()
        .fold(0, |greatest, piece| piece.weight.max(greatest))
}

/// The least weight of some pieces, 0 where there is none.
pub fn least_weight(pieces: &[Piece]) -> u128
    ensures { result ≡ least_of (map (λ p. p.weight) pieces.now) }
{
    match pieces.split_first() {
        Some((first, rest)) => rest
            .iter()
            .fold(first.weight, |least, piece| piece.weight.min(least)),
        None => 0,
    }
}
