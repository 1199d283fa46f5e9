// A lottery from its text.
ghost use Rattle.std.specs.Prelude.{IfOk};
ghost use Rattle.alloc_outcomes.specs.Causes.{lottery_cause};
ghost use Rattle.alloc_outcomes.specs.Checks.{Checked};
ghost use Rattle.alloc_readings.specs.Lottery.{LotteryReads};
ghost use Rattle.lottery_file.specs.Lotteries.{lottery_value, IsLawfulLottery};

use alloc_outcomes::Cause;
use lottery_file::{Lottery, read_lottery};
use std::alloc::Global;

/// The lottery that a file reads as.
pub fn lottery_from(alloc: Global, bytes: &[u8]) -> Result<Lottery, Cause>
    ensures read { Checked lottery_value lottery_cause (LotteryReads bytes.now) result }
    ensures lawful { IfOk result (λ l. IsLawfulLottery (lottery_value l)) }
{
    Ok(read_lottery(alloc, bytes)?)
}
