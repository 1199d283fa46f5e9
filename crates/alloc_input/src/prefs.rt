//! The reader of preferences, the first file: agents, and for each the objects that it lists. It knows the objects
//! that quotas declare, and no record of quotas.

ghost use Rattle.std.specs.Prelude.{◌≡◌, ◌<◌, ◌∷◌, ◌++◌, [], length, IfOk, OnOk};
ghost use Rattle.definitions.specs.Texts.{first_field};
ghost use Rattle.alloc_input.specs.Prefs.{check_agent, list_of};
ghost use Rattle.alloc_input.specs.Checks.{Checks};
ghost use Rattle.alloc_input.specs.PrefsReading.{ArePreferences, AreStamps, ReadsPreferences, TakesRecord, column_lists};

mod choices;

use crate::ending::check_ending;
use crate::faults::{InputKind, InputRefusal, Stop, refused};
use crate::fields::{add_name, need, need_new, read_name};
use crate::limits::MOST_AGENTS;
use crate::prefs::choices::read_choices;
use quota_sets::Names;
use std::alloc::Global;
use table_text::{Row, Rows, is_word};

/// The agents, and for each the columns that it lists, with that of `none` last.
#[derive(Debug, Drop)]
pub(crate) struct Preferences {
    pub agents: Names,
    pub lists: Vec<Vec<u32>>,
}

/// What the records so far have stated.
#[derive(Debug, Drop)]
pub(crate) struct State {
    pub header: bool,
    pub agents: Names,
    pub lists: Vec<Vec<u32>>,
}

// Takes the record of one agent.
#[tactic(auto, unfolding(crate::specs::Prefs::check_agent))]
fn take_agent(
    alloc: Global,
    row: &Row,
    objects: &Names,
    stamps: &mut [u32],
    agents: &mut Names,
    lists: &mut Vec<Vec<u32>>,
) -> Result<(), Stop>
    requires some { 0 < length row.now }
    requires stamps { AreStamps (length objects.now) (length agents.old) stamps.old }
    ensures taken { Checks result (check_agent objects.now agents.old row.now)
        (λ _. (agents.new ≡ agents.old ++ first_field row.now ∷ []) × (column_lists lists.new ≡ column_lists lists.old ++ list_of objects.now row.now ∷ [])) }
    ensures stamps { OnOk result (AreStamps (length objects.now) (length agents.new) stamps.new) }
{
    let text = row.field(0);
    let name = read_name(text)?;
    need_new(agents, text, InputKind::RepeatedAgent)?;
    need(agents.len() < MOST_AGENTS, InputKind::OverLimit)?;
    let list = read_choices(alloc, row, objects, agents.len(), stamps)?;
    add_name(agents, name)?;
    lists.push(list)?;
    Ok(())
}

// Takes one more record.
#[tactic(auto, unfolding(crate::specs::Prefs::check_record))]
fn take_record(
    alloc: Global,
    row: &Row,
    objects: &Names,
    stamps: &mut [u32],
    state: &mut State,
) -> Result<(), Stop>
    requires { AreStamps (length objects.now) (length state.old.agents) stamps.old }
    ensures taken { TakesRecord objects.now row.now state.old result state.new }
    ensures stamps { OnOk result (AreStamps (length objects.now) (length state.new.agents) stamps.new) }
{
    if row.is_empty() {
        return Ok(());
    }
    need(row.is_text(), InputKind::NotUtf8)?;
    if state.header {
        return take_agent(
            alloc,
            row,
            objects,
            stamps,
            &mut state.agents,
            &mut state.lists,
        );
    }
    need(is_word(row.field(0), b"agent"), InputKind::NoHeader)?;
    state.header = true;
    Ok(())
}

/// What the records of preferences state, over these declared objects.
pub(crate) fn read_preferences(
    alloc: Global,
    rows: &Rows,
    objects: &Names,
) -> Result<Preferences, InputRefusal>
    ensures exact { ReadsPreferences objects.now rows.now result }
    ensures lawful { IfOk result (λ v. ArePreferences (length objects.now) v.agents (column_lists v.lists)) }
{
    let mut state = State {
        header: false,
        agents: Names::new(alloc),
        lists: Vec::new(alloc),
    };
    let mut stamps = vec![in alloc; 0; objects.len() as usize]?;
    for i in 0..rows.len() {
        // By hand, since the refusal says besides at which record.
        if let Err(stop) = take_record(alloc, rows.at(i), objects, &mut stamps, &mut state) {
            return Err(refused(stop, 1, i as u64 + 1));
        }
    }
    check_ending(rows, state.header, &state.agents)?;
    let State { agents, lists, .. } = state;
    Ok(Preferences { agents, lists })
}
