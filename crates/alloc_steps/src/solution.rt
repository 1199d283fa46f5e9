//! A problem's lottery written.

ghost use Rattle.std.specs.Prelude.{◌≡◌, ℕ, false, length, List};
ghost use Rattle.definitions.specs.Certificate.{Certifies, IsRecipeOf};
ghost use Rattle.definitions.specs.Lotteries.{SolvesFor};
ghost use Rattle.definitions.specs.Sets.{units_of};
ghost use Rattle.definitions.specs.Texts.{has_name, null_name};
ghost use Rattle.definitions.specs.Trees.{AreTreesOf};
ghost use Rattle.definitions.specs.Values.{column_count, prices_value};
ghost use Rattle.device_core.specs.Counts.{WriterCounts};
ghost use Rattle.eating.specs.Answers.{IsEaten, IsEatenBy};
ghost use Rattle.alloc_steps.specs.Writing.{WritesLotteryOrNothing};

use crate::copies::{columns_of, lists_of};
use crate::written::write_peeled;
use bihierarchy::Trees;
use device_core::{Sink, SinkFault};
use eating::Eaten;
use peeling::Peeler;
use quota_sets::{Family, Prices, Problem};
use std::alloc::Global;

/// Writes a lottery that solves a problem, with pieces for this family: its shares are what is eaten,
/// its prices are those of the recipe and certify them, and its pieces, which are written as they are
/// peeled, round the shares at every cell and at every set of the family.
///
/// All memory but that of the writers is taken first. `NoMemory` may come at any problem, and then
/// nothing was written or a front of the text; `Failed` comes only where the sink's count of faults
/// rose, and then a front was written.
pub fn write_solution<K: Sink>(
    alloc: Global,
    problem: &Problem,
    family: &Family,
    trees: &Trees,
    eaten: &Eaten,
    prices: &Prices,
    out: &mut K,
) -> Result<(), SinkFault>
    requires agents { family.now.agents ≡ length problem.now.agents }
    requires columns { family.now.columns ≡ column_count problem.now }
    requires trees { AreTreesOf family.now trees.now }
    requires eaten { IsEaten problem.now eaten.now }
    requires recipe { (e : List ℕ) → IsEatenBy problem.now e eaten.now
        → IsRecipeOf problem.now eaten.now.shares.denominator e (prices_value prices.now) }
    requires certifies { Certifies problem.now eaten.now.shares.denominator
        (units_of eaten.now.shares) (prices_value prices.now) }
    requires plain { has_name problem.now.objects null_name ≡ false }
    ensures lottery { WritesLotteryOrNothing K.written (SolvesFor family.now problem.now)
        out.old out.new result }
    ensures flushed { K.flushed out.new ≡ K.flushed out.old }
    ensures cause { WriterCounts (K.faults out.old) (K.faults out.new)
        (K.short out.old) (K.short out.new) result }
{
    let Ok(columns) = columns_of(alloc, problem.objects()) else {
        return Err(SinkFault::NoMemory);
    };
    let Ok(lists) = lists_of(alloc, problem) else {
        return Err(SinkFault::NoMemory);
    };
    let shares = eaten.shares();
    let Ok(mut peeler) = Peeler::new(alloc, trees, family, shares) else {
        return Err(SinkFault::NoMemory);
    };
    let cells = shares.agents() as usize * shares.columns() as usize;
    let Ok(mut counts) = vec![in alloc; 0; cells] else {
        return Err(SinkFault::NoMemory);
    };
    write_peeled(
        alloc,
        problem.agents(),
        &columns,
        shares,
        &lists,
        Some(prices),
        &mut peeler,
        &mut counts,
        out,
    )
}
