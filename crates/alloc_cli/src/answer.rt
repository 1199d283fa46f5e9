// A command with its files: they are loaded, measured and handed to the command's step.
ghost use Rattle.std.specs.Prelude.{◌≡◌, ◌+◌, ◌≤◌, ◌<◌, map, length, string_bytes, All};
ghost use Rattle.alloc_cli.specs.Load.{bytes_of, LoadsCount};
ghost use Rattle.alloc_cli.specs.Outcomes.{meaning_of_none, meaning_of_one, meaning_of_three, meaning_of_two, Answers, Measures, Outcome};
ghost use Rattle.alloc_cli.specs.Top.{Answered};
ghost use Rattle.alloc_cli.specs.Words.{file_count, IsWithinLimits};
ghost use Rattle.alloc_outcomes.specs.Limits.{file_limit};
ghost use Rattle.alloc_outcomes.specs.Steps.{OutCounts, ShortCounts, Steps};

use crate::load::{FILE_LIMIT, load_all};
use crate::words::{Command, NoFile, OneFile, ThreeFiles, TwoFiles};
use alloc_audits::{audit, audit_guarded, audit_matrix, envy};
use alloc_draws::{draw, pact_commit, pact_draw, pick, report};
use alloc_outcomes::Cause;
use alloc_steps::{decompose, decompose_free, generate, solve, solve_guarded};
use alloc_tables::{sets, sides, table};
use device_core::{Files, Sink};
use std::alloc::Global;

// The first file of too many bytes.
fn check_lengths(given: &[Vec<u8>]) -> Result<(), Cause>
    requires { length given.now < 255 }
    ensures { Measures (bytes_of given.now) result }
{
    for (i, bytes) in given.iter().enumerate() {
        if bytes.len() > FILE_LIMIT {
            return Err(Cause::TooLong { file: i as u8 + 1 });
        }
    }
    Ok(())
}

// The step of a command on no file: one arm for each.
fn step_none<K: Sink>(alloc: Global, command: NoFile, out: &mut K) -> Result<(), Cause>
    requires { IsWithinLimits (Command.Zero command) }
    ensures { Steps K.Sink (meaning_of_none command).answers out.old out.new result }
{
    match command {
        NoFile::Generate {
            seed,
            agents,
            objects,
        } => generate::step(alloc, seed, agents, objects, out),
        NoFile::PactCommit { name, contribution } => {
            pact_commit::step(alloc, name.text(), contribution, out)
        }
    }
}

// The step of a command on one file: one arm for each.
fn step_one<K: Sink>(
    alloc: Global,
    command: OneFile,
    first: &[u8],
    out: &mut K,
) -> Result<(), Cause>
    ensures { Steps K.Sink ((meaning_of_one command).answers first.now) out.old out.new result }
{
    match command {
        OneFile::Pick { ticket } => pick::step(alloc, first, ticket, out),
        OneFile::Draw { seed } => draw::step(alloc, first, seed, out),
        OneFile::Report => report::step(alloc, first, out),
    }
}

// The step of a command on two files: one arm for each.
fn step_two<K: Sink>(
    alloc: Global,
    command: TwoFiles,
    first: &[u8],
    second: &[u8],
    out: &mut K,
) -> Result<(), Cause>
    requires { length second.now ≤ file_limit }
    ensures { Steps K.Sink ((meaning_of_two command).answers first.now second.now)
        out.old out.new result }
{
    match command {
        TwoFiles::Sets => sets::step(alloc, first, second, out),
        TwoFiles::Table => table::step(alloc, first, second, out),
        TwoFiles::Decompose => decompose::step(alloc, first, second, out),
        TwoFiles::Sides => sides::step(alloc, first, second, out),
        TwoFiles::DecomposeFree => decompose_free::step(alloc, first, second, out),
        TwoFiles::Solve => solve::step(alloc, first, second, out),
        TwoFiles::PactDraw => pact_draw::step(alloc, first, second, out),
        TwoFiles::SolveGuarded => solve_guarded::step(alloc, first, second, out),
    }
}

// The step of a command on three files: one arm for each.
fn step_three<K: Sink>(
    alloc: Global,
    command: ThreeFiles,
    first: &[u8],
    second: &[u8],
    third: &[u8],
    out: &mut K,
) -> Result<(), Cause>
    requires { length second.now ≤ file_limit }
    ensures { Steps K.Sink ((meaning_of_three command).answers first.now second.now third.now)
        out.old out.new result }
{
    match command {
        ThreeFiles::Audit => audit::step(alloc, first, second, third, out),
        ThreeFiles::AuditMatrix => audit_matrix::step(alloc, first, second, third, out),
        ThreeFiles::Envy => envy::step(alloc, first, second, third, out),
        ThreeFiles::AuditGuarded => audit_guarded::step(alloc, first, second, third, out),
    }
}

// The step of a command on what its files gave.
fn step<K: Sink>(
    alloc: Global,
    command: Command,
    given: &[Vec<u8>],
    out: &mut K,
) -> Result<(), Cause>
    requires count { length given.now ≡ file_count command }
    requires limits { IsWithinLimits command }
    requires short { All (λ bytes. length bytes ≤ file_limit) (bytes_of given.now) }
    ensures { Steps K.Sink (Answers command (bytes_of given.now)) out.old out.new result }
{
    match command {
        Command::Zero(none) => step_none(alloc, none, out),
        Command::One(one) => step_one(alloc, one, &given[0], out),
        Command::Two(two) => step_two(alloc, two, &given[0], &given[1], out),
        Command::Three(three) => { step_three(alloc, three, &given[0], &given[1], &given[2], out) }
    }
}

// What a command does with what its files gave.
fn decide<K: Sink>(
    alloc: Global,
    command: Command,
    given: &[Vec<u8>],
    out: &mut K,
) -> Result<(), Cause>
    requires count { length given.now ≡ file_count command }
    requires limits { IsWithinLimits command }
    ensures { Steps K.Sink (Outcome command (bytes_of given.now)) out.old out.new result }
{
    check_lengths(given)?;
    step(alloc, command, given, out)
}

/// A command, up to the flush.
pub fn answer<F: Files, K: Sink>(
    alloc: Global,
    command: Command,
    words: &[String],
    files: &mut F,
    out: &mut K,
) -> Result<(), Cause>
    requires files { file_count command + 1 ≤ length words.now }
    requires limits { IsWithinLimits command }
    ensures answered { Answered K.Sink (F.held files.old) (map string_bytes words.now) command
        out.old out.new result }
    ensures files { LoadsCount (F.faults files.old) (F.faults files.new) result }
    ensures short { ShortCounts (K.short out.old) (K.short out.new) result }
    ensures out { OutCounts (K.faults out.old) (K.faults out.new) result }
{
    let names = &words[1..1 + command.file_count()];
    let given = load_all(alloc, names, files)?;
    decide(alloc, command, &given, out)
}
