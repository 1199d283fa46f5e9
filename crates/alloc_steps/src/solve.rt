//! `solve`: preference lists and quotas become a lottery, with prices that certify its odds.

ghost use Rattle.alloc_outcomes.specs.Steps.{Steps};
ghost use Rattle.alloc_steps.specs.Solve.{SolveAnswers};

use crate::solution::write_solution;
use alloc_outcomes::Cause;
use alloc_readings::{eaten_from, problem_from, trees_from};
use device_core::Sink;
use price_cert::certificate;
use std::alloc::Global;

/// `solve PREFS QUOTAS`: a lottery that solves the problem: its odds are what is eaten, its prices
/// certify them, and its pieces keep every quota and add up to them.
pub fn step<K: Sink>(alloc: Global, prefs: &[u8], quotas: &[u8], out: &mut K) -> Result<(), Cause>
    ensures { Steps K.Sink (SolveAnswers prefs.now quotas.now) out.old out.new result }
{
    let problem = problem_from(alloc, prefs, quotas)?;
    let family = problem.family();
    let trees = trees_from(alloc, family)?;
    let eaten = eaten_from(alloc, &problem, &trees)?;
    let prices = certificate(alloc, &problem, &trees, &eaten)?;
    write_solution(alloc, &problem, family, &trees, &eaten, &prices, out)?;
    Ok(())
}
