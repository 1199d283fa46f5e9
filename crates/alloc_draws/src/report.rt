//! `report`: the summary of a lottery.

ghost use Rattle.alloc_draws.specs.Report.{ReportAnswers};
ghost use Rattle.alloc_outcomes.specs.Steps.{Steps};

use alloc_outcomes::{Cause, write_text};
use alloc_readings::lottery_from;
use alloc_report::summary;
use device_core::Sink;
use std::alloc::Global;

/// `report LOTTERY`: the summary of the lottery.
pub fn step<K: Sink>(alloc: Global, bytes: &[u8], out: &mut K) -> Result<(), Cause>
    ensures { Steps K.Sink (ReportAnswers bytes.now) out.old out.new result }
{
    let lottery = lottery_from(alloc, bytes)?;
    let text = summary(alloc, &lottery)?;
    write_text(&text, out)
}
