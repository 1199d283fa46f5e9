//! `solve-guarded`: as `solve`, with pieces for the guarded family.

ghost use Rattle.std.specs.Prelude.{◌≡◌, false};
ghost use Rattle.alloc_outcomes.specs.Steps.{Steps};
ghost use Rattle.alloc_steps.specs.SolveGuarded.{GuardedAnswers, SolveGuardedAnswers};
ghost use Rattle.definitions.specs.Texts.{has_name, null_name};
ghost use Rattle.definitions.specs.Trees.{AreTreesOf};
ghost use Rattle.eating.specs.Answers.{IsEaten};

use crate::apart::trees_apart;
use crate::solution::write_solution;
use alloc_outcomes::Cause;
use alloc_readings::{eaten_from, guarded_from, problem_from, trees_from};
use bihierarchy::Trees;
use device_core::Sink;
use eating::Eaten;
use price_cert::certificate;
use quota_sets::Problem;
use std::alloc::Global;

// Writes a lottery of what is eaten in a problem, with pieces for the guarded family.
fn write_guarded<K: Sink>(
    alloc: Global,
    problem: &Problem,
    trees: &Trees,
    eaten: &Eaten,
    out: &mut K,
) -> Result<(), Cause>
    requires trees { AreTreesOf problem.now.family trees.now }
    requires eaten { IsEaten problem.now eaten.now }
    requires plain { has_name problem.now.objects null_name ≡ false }
    ensures { Steps K.Sink (GuardedAnswers problem.now eaten.now) out.old out.new result }
{
    let _stated = problem.stated();
    let family = guarded_from(alloc, problem, eaten.shares())?;
    let apart = trees_apart(alloc, &family)?;
    let prices = certificate(alloc, problem, trees, eaten)?;
    write_solution(alloc, problem, &family, &apart, eaten, &prices, out)?;
    Ok(())
}

/// `solve-guarded PREFS QUOTAS`: a lottery that solves the problem, with pieces for the guarded family
/// of what is eaten: what any two of them give an agent is worth nearly as much.
pub fn step<K: Sink>(alloc: Global, prefs: &[u8], quotas: &[u8], out: &mut K) -> Result<(), Cause>
    ensures { Steps K.Sink (SolveGuardedAnswers prefs.now quotas.now) out.old out.new result }
{
    let problem = problem_from(alloc, prefs, quotas)?;
    let trees = trees_from(alloc, problem.family())?;
    let eaten = eaten_from(alloc, &problem, &trees)?;
    write_guarded(alloc, &problem, &trees, &eaten, out)
}
