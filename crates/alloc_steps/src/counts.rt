//! The piece last given, as a list of counts.

ghost use Rattle.std.specs.Prelude.{◌≡◌, ◌+◌, ◌*◌, ◌<◌, length, IsSome, Some};
ghost use Rattle.alloc_steps.specs.Filling.{IsFilledBefore};

use peeling::Peeler;
use quota_sets::Cell;

// Puts the row of an agent, column by column.
fn fill_row(peeler: &Peeler, agent: u32, counts: &mut [u32])
    requires given { IsSome peeler.now.piece }
    requires agent { agent < peeler.now.agents }
    requires cells { length counts.old ≡ peeler.now.agents * peeler.now.columns }
    requires before { IsFilledBefore peeler.now (agent * peeler.now.columns) counts.old }
    ensures { IsFilledBefore peeler.now ((agent + 1) * peeler.now.columns) counts.new }
{
    let columns = peeler.columns();
    let start = agent as usize * columns as usize;
    for object in 0..columns {
        counts[start + object as usize] = peeler.piece(Cell { agent, object });
    }
}

/// Puts what the piece last given has at each cell, row by row.
pub(crate) fn fill_counts(peeler: &Peeler, counts: &mut [u32])
    requires given { IsSome peeler.now.piece }
    requires cells { length counts.old ≡ peeler.now.agents * peeler.now.columns }
    ensures { peeler.now.piece ≡ Some counts.new }
{
    for agent in 0..peeler.agents() {
        fill_row(peeler, agent, counts);
    }
}
