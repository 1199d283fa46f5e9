//! Given shares written as a lottery.

ghost use Rattle.std.specs.Prelude.{◌≡◌, false, length};
ghost use Rattle.definitions.specs.Trees.{AreTreesOf};
ghost use Rattle.definitions.specs.Lotteries.{Splits, ends_with_none};
ghost use Rattle.definitions.specs.Scaling.{IsScaled};
ghost use Rattle.device_core.specs.Counts.{WriterCounts};
ghost use Rattle.alloc_steps.specs.Writing.{WritesLotteryOrNothing};

use crate::written::write_peeled;
use bihierarchy::Trees;
use device_core::{Sink, SinkFault};
use peeling::Peeler;
use quota_sets::{Family, Scaled};
use scaled_matrix::Shares;
use std::alloc::Global;

/// Writes a lottery that splits given shares under a family: `x` are the shares in units over their
/// least common denominator, and its pieces, which are written as they are peeled, round it at
/// every cell and set.
///
/// All memory but that of the writers is taken first. `NoMemory` may come at any shares, and then
/// nothing was written or a front of the text; `Failed` comes only where the sink's count of faults
/// rose, and then a front was written.
pub fn write_split<K: Sink>(
    alloc: Global,
    shares: &Shares,
    family: &Family,
    trees: &Trees,
    x: &Scaled,
    out: &mut K,
) -> Result<(), SinkFault>
    requires trees { AreTreesOf family.now trees.now }
    requires scaled { IsScaled shares.now x.now }
    requires agents { family.now.agents ≡ length shares.now.agents }
    requires columns { family.now.columns ≡ length shares.now.objects }
    requires plain { ends_with_none shares.now.objects ≡ false }
    ensures lottery { WritesLotteryOrNothing K.written (Splits shares.now family.now)
        out.old out.new result }
    ensures flushed { K.flushed out.new ≡ K.flushed out.old }
    ensures cause { WriterCounts (K.faults out.old) (K.faults out.new)
        (K.short out.old) (K.short out.new) result }
{
    let peeler = Peeler::new(alloc, trees, family, x);
    let mut peeler = peeler.map_err(|_| SinkFault::NoMemory)?;
    let cells = x.agents() as usize * x.columns() as usize;
    let counts = vec![in alloc; 0; cells];
    let mut counts = counts.map_err(|_| SinkFault::NoMemory)?;
    write_peeled(
        alloc,
        shares.agents(),
        shares.objects(),
        x,
        &[],
        None,
        &mut peeler,
        &mut counts,
        out,
    )
}
