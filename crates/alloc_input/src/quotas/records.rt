//! The records of a text of quotas, one after the other, whatever their kinds.

ghost use Rattle.std.specs.Prelude.{◌≡◌, ◌≤◌, ℕ, List, Some, length, IfOk, OnOk};
ghost use Rattle.alloc_input.specs.Stated.{setting_of, is_solve, nothing_of, add_kind, add_record};
ghost use Rattle.alloc_input.specs.Quotas.{check_next, check_word, fields_fit};
ghost use Rattle.alloc_input.specs.Reading.{held, IsSound, ReadsRecords, Takes};

use crate::faults::{InputKind, InputRefusal, Stop, refused};
use crate::fields::need;
use crate::mode::Mode;
use crate::quotas::agents::{take_demand, take_row};
use crate::quotas::fields::{has_length, has_two};
use crate::quotas::labels::{take_bundle, take_group};
use crate::quotas::objects::take_object;
use crate::quotas::sets::{take_in, take_set};
use crate::quotas::state::State;
use crate::quotas::words::{Word, word_of};
use quota_sets::Names;
use std::alloc::{AllocError, Global};
use table_text::{Row, Rows};

// Whether a record of a kind has as many fields as it may.
#[tactic(auto, unfolding(crate::specs::Quotas::fields_fit))]
fn has_fields(word: Word, row: &Row) -> bool
    ensures { result ≡ fields_fit word row.now }
{
    match word {
        Word::Object | Word::Agent => has_length(row, 2, 4),
        Word::Group | Word::Bundle => has_two(row),
        Word::Set => has_length(row, 3, 5),
        Word::In => has_length(row, 4, 4),
    }
}

// Takes a record of a kind that has as many fields as it may.
#[tactic(auto, unfolding(crate::specs::Quotas::check_word, crate::specs::Stated::add_kind, crate::specs::Quotas::fields_fit))]
fn take_word(
    alloc: Global,
    word: Word,
    row: &Row,
    agents: &Names,
    objects: &Names,
    solve: bool,
    state: &mut State,
) -> Result<(), Stop>
    requires sound { IsSound (length agents.now) (length objects.now) state.old }
    requires fields { 2 ≤ length row.now }
    ensures checked { Takes (check_word word) (add_kind (Some word)) (setting_of agents.now objects.now solve)
        state.old row.now result state.new }
    ensures sound { OnOk result (IsSound (length agents.now) (length objects.now) state.new) }
{
    match word {
        Word::Object => take_object(alloc, row, agents, objects, solve, state),
        Word::Agent => {
            if solve {
                return take_demand(row, agents, objects, solve, state);
            }
            take_row(alloc, row, agents, objects, solve, state)
        }
        Word::Group => take_group(alloc, row, agents, state),
        Word::Bundle => take_bundle(alloc, row, objects, state),
        Word::Set => take_set(alloc, row, agents, objects, solve, state),
        Word::In => take_in(alloc, row, agents, objects, solve, state),
    }
}

// Takes one more record.
#[tactic(auto, unfolding(crate::specs::Quotas::check_next, crate::specs::Stated::add_record, crate::specs::Quotas::check_kind))]
fn take_record(
    alloc: Global,
    row: &Row,
    agents: &Names,
    objects: &Names,
    solve: bool,
    state: &mut State,
) -> Result<(), Stop>
    requires { IsSound (length agents.now) (length objects.now) state.old }
    ensures checked { Takes check_next add_record (setting_of agents.now objects.now solve)
        state.old row.now result state.new }
    ensures sound { OnOk result (IsSound (length agents.now) (length objects.now) state.new) }
{
    if row.len() == 0 {
        return Ok(());
    }
    need(row.is_text(), InputKind::NotUtf8)?;
    let word = word_of(row.field_at(0)).ok_or(InputKind::UnknownKind)?;
    need(has_fields(word, row), InputKind::WrongLength)?;
    take_word(alloc, word, row, agents, objects, solve, state)
}

// What no records state.
fn no_records(alloc: Global, agents: u32) -> Result<State, AllocError>
    ensures stated { IfOk result (λ s. held s ≡ nothing_of agents) }
    ensures sound { (m n : ℕ) → IfOk result (λ s. IsSound m n s) }
{
    let demands = vec![in alloc; 1; agents as usize]?;
    Ok(State {
        columns: Names::new(alloc),
        rows: Names::new(alloc),
        groups: Names::new(alloc),
        members: Vec::new(alloc),
        bundles: Names::new(alloc),
        contents: Vec::new(alloc),
        names: Names::new(alloc),
        places: Vec::new(alloc),
        sets: Vec::new(alloc),
        total: 0,
        demands,
    })
}

/// What the records of a text of quotas state.
pub(crate) fn read_quota_records(
    alloc: Global,
    rows: &Rows,
    agents: &Names,
    objects: &Names,
    mode: Mode,
) -> Result<State, InputRefusal>
    ensures reads { ReadsRecords (setting_of agents.now objects.now (is_solve mode)) rows.now result }
    ensures sound { IfOk result (λ s. IsSound (length agents.now) (length objects.now) s) }
{
    let solve = mode.is_solve();
    let mut state = no_records(alloc, agents.len())?;
    for i in 0..rows.len() {
        // By hand, since the refusal says besides at which record.
        if let Err(stop) = take_record(alloc, rows.at(i), agents, objects, solve, &mut state) {
            return Err(refused(stop, 2, i as u64 + 1));
        }
    }
    Ok(state)
}

/// The demand of each agent.
pub(crate) fn demands_of(state: State) -> Vec<u32>
    ensures { result.items ≡ (held state).demands }
{
    let State {
        columns: _,
        rows: _,
        groups: _,
        members: _,
        bundles: _,
        contents: _,
        names: _,
        places: _,
        sets: _,
        total: _,
        demands,
    } = state;
    demands
}
