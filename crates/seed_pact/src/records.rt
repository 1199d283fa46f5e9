// One more record: checked, and what it says added to the state.
ghost use Rattle.std.specs.Prelude.{◌≡◌, false, is_some};
ghost use Rattle.definitions.specs.Texts.{has_name};
ghost use Rattle.seed_pact.specs.Checks.{may_come, check_commit, check_pact, check_reveal};
ghost use Rattle.seed_pact.specs.Said.{entry_of};
ghost use Rattle.seed_pact.specs.Reading.{held, IsNewEntry, Reads, Takes, TakesRecord};
ghost use Rattle.seed_pact.specs.declared.words.Word.TheVariants as word;

use crate::entries::{Entries, Entry};
use crate::faults::{PactKind, Stop, need};
use crate::seeds::{are_same, commitment, read_bytes};
use crate::words::{Word, word_of};
use std::alloc::Global;
use table_text::{Row, is_word, name_of};

/// What the records so far say.
#[derive(Drop)]
pub(crate) struct State {
    pub has_head: bool,
    pub commits: Entries,
    pub reveals: Entries,
}

// Whether a record of this kind may come.
#[tactic(auto, unfolding(crate::specs::Checks::may_come, crate::specs::Reading::held))]
fn may_come(word: Word, state: &State) -> bool
    ensures { result ≡ may_come word (held state.now) }
{
    match word {
        Word::Pact => !state.has_head,
        Word::Commit => state.has_head && state.reveals.len() == 0,
        Word::Reveal => state.has_head && state.commits.len() > 0,
    }
}

fn is_known(entries: &Entries, name: &[u8]) -> bool
    ensures found { result ≡ is_some (entry_of entries.now name.now) }
    ensures free { result ≡ false → has_name entries.now.names name.now ≡ false }
{
    entries.find(name).is_some()
}

#[tactic(auto, unfolding(crate::specs::Checks::check_pact))]
fn check_pact(row: &Row) -> Result<(), PactKind>
    ensures { Reads result (check_pact row.now) (λ _. Unit {0}) }
{
    need(row.len() == 2, PactKind::WrongLength)?;
    need(is_word(row.field(1), b"1"), PactKind::UnknownVersion)
}

#[tactic(auto, unfolding(crate::specs::Checks::check_commit))]
fn read_commit<'a>(row: &'a Row, commits: &Entries) -> Result<Entry<'a>, PactKind>
    ensures { Reads result (check_commit commits.now row.now) (IsNewEntry commits.now row.now) }
{
    need(row.len() == 3, PactKind::WrongLength)?;
    let name = name_of(row.field(1)).ok_or(PactKind::BadName)?;
    need(!is_known(commits, row.field(1)), PactKind::RepeatedName)?;
    need(commits.len() < 1000, PactKind::OverLimit)?;
    let value = read_bytes(row.field(2)).ok_or(PactKind::BadHex)?;
    Ok(Entry { name, value })
}

#[tactic(auto, unfolding(crate::specs::Checks::check_reveal))]
fn read_reveal<'a>(
    row: &Row,
    commits: &'a Entries,
    reveals: &Entries,
) -> Result<Entry<'a>, PactKind>
    ensures { Reads result (check_reveal commits.now reveals.now row.now)
        (IsNewEntry reveals.now row.now) }
{
    need(row.len() == 3, PactKind::WrongLength)?;
    let commit = commits.find(row.field(1)).ok_or(PactKind::UnknownName)?;
    let name = commit.name;
    need(!is_known(reveals, row.field(1)), PactKind::RepeatedReveal)?;
    let value = read_bytes(row.field(2)).ok_or(PactKind::BadHex)?;
    let is_kept = are_same(&commitment(name, value), &commit.value);
    need(is_kept, PactKind::Mismatch)?;
    Ok(Entry { name, value })
}

#[tactic(auto, unfolding(crate::specs::Checks::check_word, crate::specs::Said::add, crate::specs::Reading::held))]
fn take_commit(alloc: Global, row: &Row, state: &mut State) -> Result<(), Stop>
    ensures { Takes word.Commit row.now state.old result state.new }
{
    let entry = read_commit(row, &state.commits)?;
    state.commits.push(alloc, entry.name, entry.value)?;
    Ok(())
}

#[tactic(auto, unfolding(crate::specs::Checks::check_word, crate::specs::Said::add, crate::specs::Reading::held))]
fn take_reveal(alloc: Global, row: &Row, state: &mut State) -> Result<(), Stop>
    ensures { Takes word.Reveal row.now state.old result state.new }
{
    let entry = read_reveal(row, &state.commits, &state.reveals)?;
    state.reveals.push(alloc, entry.name, entry.value)?;
    Ok(())
}

// A record of this kind, which may come.
#[tactic(auto, unfolding(crate::specs::Checks::check_word, crate::specs::Said::add, crate::specs::Reading::held))]
fn take_word(alloc: Global, word: Word, row: &Row, state: &mut State) -> Result<(), Stop>
    ensures { Takes word row.now state.old result state.new }
{
    match word {
        Word::Pact => {
            check_pact(row)?;
            state.has_head = true;
            Ok(())
        }
        Word::Commit => take_commit(alloc, row, state),
        Word::Reveal => take_reveal(alloc, row, state),
    }
}

// One more record.
#[tactic(auto, unfolding(crate::specs::Checks::check_next, crate::specs::Checks::check_kind, crate::specs::Said::add_word))]
pub(crate) fn take_record(alloc: Global, row: &Row, state: &mut State) -> Result<(), Stop>
    ensures { TakesRecord row.now state.old result state.new }
{
    if row.is_empty() {
        return Ok(());
    }
    need(row.is_text(), PactKind::NotUtf8)?;
    let word = word_of(row.field(0)).ok_or(PactKind::WrongOrder)?;
    need(may_come(word, state), PactKind::WrongOrder)?;
    take_word(alloc, word, row, state)
}
