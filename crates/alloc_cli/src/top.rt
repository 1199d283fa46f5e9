// The top call.
ghost use Rattle.std.specs.Prelude.{◌≡◌, ◌↔◌, None, map, string_bytes, List, ℕ};
ghost use Rattle.alloc_cli.specs.Complete.{Completes};
ghost use Rattle.alloc_cli.specs.Finish.{status_of, Tells};
ghost use Rattle.alloc_cli.specs.Headline.{Headline};
ghost use Rattle.alloc_cli.specs.Load.{LoadsCount};
ghost use Rattle.alloc_cli.specs.Outcomes.{Outcome};
ghost use Rattle.alloc_cli.specs.Runs.{FilesCount};
ghost use Rattle.alloc_cli.specs.Top.{Begun, Ran};
ghost use Rattle.alloc_cli.specs.Words.{command_of};
ghost use Rattle.alloc_cli.specs.declared.words.Command.{Command};
ghost use Rattle.alloc_outcomes.specs.Answers.{RefusesAlone};
ghost use Rattle.alloc_outcomes.specs.Sentences.{counts_of};
ghost use Rattle.alloc_outcomes.specs.Steps.{OutCount, OutCounts, ShortCount, ShortCounts};

use crate::answer::answer;
use crate::finish::{Ended, finish};
use crate::words::parse;
use alloc_outcomes::Cause;
use device_core::{Files, Sink};
use std::alloc::Global;

/// What the files of a command gave decides between a refusal and a text, and between two refusals:
/// where an outcome refuses, it has no other answer.
pub fn one_answer()
    ensures { (command : Command) (given : List (List ℕ)) → RefusesAlone (Outcome command given) }
{}

// A run up to the flush.
fn begin<F: Files, K: Sink>(
    alloc: Global,
    words: &[String],
    files: &mut F,
    out: &mut K,
) -> Result<(), Cause>
    ensures unloaded { command_of (map string_bytes words.now) ≡ None → files.new ≡ files.old }
    ensures begun { Begun K.Sink (F.held files.old) (map string_bytes words.now)
        out.old out.new result }
    ensures files { LoadsCount (F.faults files.old) (F.faults files.new) result }
    ensures short { ShortCounts (K.short out.old) (K.short out.new) result }
    ensures out { OutCounts (K.faults out.old) (K.faults out.new) result }
{
    match parse(words) {
        None => Err(Cause::Usage),
        Some(command) => answer(alloc, command, words, files, out),
    }
}

/// All that the program does.
pub fn run<F: Files, K: Sink, E: Sink>(
    alloc: Global,
    words: &[String],
    files: &mut F,
    out: &mut K,
    err: &mut E,
) -> Ended
    ensures answer { Ran K.Sink (F.held files.old) (map string_bytes words.now)
        out.old out.new result.cause }
    ensures unloaded { command_of (map string_bytes words.now) ≡ None → files.new ≡ files.old }
    ensures read { FilesCount (F.faults files.old) (F.faults files.new) result.cause }
    ensures write { OutCount (K.faults out.old) (K.faults out.new) result.cause }
    ensures short { ShortCount (K.short out.old) (K.short out.new) result.cause }
    ensures usage { (result.cause ≡ Cause.Usage) ↔ (command_of (map string_bytes words.now) ≡ None) }
    ensures complete { Completes (F.held files.old) (map string_bytes words.now)
        (counts_of F.Files K.Sink files.old out.old)
        (counts_of F.Files K.Sink files.new out.new) result.cause }
    ensures headline { Headline (F.held files.old) (map string_bytes words.now)
        (K.written out.old) (K.written out.new)
        (counts_of F.Files K.Sink files.old out.old)
        (counts_of F.Files K.Sink files.new out.new) result.cause }
    ensures status { result.status ≡ status_of result.cause }
    ensures err { Tells E.Sink err.old err.new result.cause }
{
    let written = begin(alloc, words, files, out);
    finish(written, out, err)
}
