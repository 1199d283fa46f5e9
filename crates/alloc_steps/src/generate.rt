//! `generate`: a problem that a seed makes is solved, and its lottery summed up.

ghost use Rattle.std.specs.Prelude.{◌≡◌, false, IfOk};
ghost use Rattle.alloc_outcomes.specs.Steps.{Steps};
ghost use Rattle.alloc_steps.specs.Generate.{problem_of, GenerateAnswers, IsMakeable, SummaryAnswers};
ghost use Rattle.definitions.specs.Sets.{IsBihierarchy};
ghost use Rattle.definitions.specs.Texts.{has_name, null_name};

use crate::apart::trees_apart;
use crate::gathered::gather;
use alloc_gen::{GenFault, make};
use alloc_outcomes::{Cause, write_text};
use alloc_readings::eaten_from;
use alloc_report::summary;
use device_core::Sink;
use price_cert::certificate;
use quota_sets::{NoMemory, Problem};
use std::alloc::Global;

// The problem that the seed makes, of a size that can be made.
fn make_sized(alloc: Global, seed: [u8; 32], agents: u32, objects: u32) -> Result<Problem, NoMemory>
    requires { IsMakeable agents objects }
    ensures made { IfOk result (λ p. p ≡ problem_of seed agents objects) }
    ensures apart { IfOk result (λ p. IsBihierarchy p.family) }
{
    match make(alloc, seed, agents, objects) {
        Ok(problem) => Ok(problem),
        Err(GenFault::NoMemory) => Err(NoMemory),
        Err(GenFault::OverLimit) => unreachable!(),
    }
}

// The summary of a lottery that solves a problem.
fn sum_up<K: Sink>(alloc: Global, problem: &Problem, out: &mut K) -> Result<(), Cause>
    requires apart { IsBihierarchy problem.now.family }
    requires plain { has_name problem.now.objects null_name ≡ false }
    ensures { Steps K.Sink (SummaryAnswers problem.now) out.old out.new result }
{
    let trees = trees_apart(alloc, problem.family())?;
    let eaten = eaten_from(alloc, problem, &trees)?;
    let prices = certificate(alloc, problem, &trees, &eaten)?;
    let lottery = gather(alloc, problem, &trees, &eaten, prices)?;
    let text = summary(alloc, &lottery)?;
    write_text(&text, out)
}

/// `generate SEED AGENTS OBJECTS`: the summary of a lottery that solves the problem which the seed
/// makes.
pub fn step<K: Sink>(
    alloc: Global,
    seed: [u8; 32],
    agents: u32,
    objects: u32,
    out: &mut K,
) -> Result<(), Cause>
    requires { IsMakeable agents objects }
    ensures { Steps K.Sink (GenerateAnswers seed agents objects) out.old out.new result }
{
    let problem = make_sized(alloc, seed, agents, objects)?;
    sum_up(alloc, &problem, out)
}
