//! The choices of an agent: the columns that its record lists.

ghost use Rattle.std.specs.Prelude.{◌≡◌, ◌==◌, ◌+◌, ◌<◌, length, slice_index, OnOk};
ghost use Rattle.alloc_input.specs.Prefs.{check_choices, list_of};
ghost use Rattle.alloc_input.specs.Checks.{Checks};
ghost use Rattle.alloc_input.specs.PrefsReading.{AreStamps, ShowList, TakesChoice};

use crate::faults::{InputKind, Stop};
use crate::fields::{find_known, is_null, need};
use quota_sets::Names;
use std::alloc::Global;
use table_text::{Row, lawful_name};

// Whether a column has this agent's stamp.
fn is_stamped(stamps: &[u32], column: u32, agent: u32) -> bool
    requires { column < length stamps.now }
    ensures { result ≡ (slice_index stamps.now column == agent) }
{
    stamps[column as usize] == agent
}

// Takes one more field of an agent's list. The columns on the list have the agent's stamp.
#[tactic(auto, unfolding(crate::specs::Prefs::check_choice))]
fn take_choice(
    field: &[u8],
    objects: &Names,
    agent: u32,
    stamps: &mut [u32],
    list: &mut Vec<u32>,
    closed: &mut bool,
) -> Result<(), Stop>
    requires stamps { AreStamps (length objects.now) agent stamps.old }
    requires shown { ShowList agent stamps.old list.old.items }
    ensures taken { TakesChoice objects.now field.now list.old.items closed.old result list.new.items closed.new }
    ensures stamps { OnOk result (AreStamps (length objects.now) agent stamps.new) }
    ensures shown { OnOk result (ShowList agent stamps.new list.new.items) }
{
    if field.is_empty() {
        return Ok(());
    }
    need(!*closed, InputKind::NullNotLast)?;
    if is_null(field) {
        *closed = true;
        return Ok(());
    }
    need(lawful_name(field), InputKind::BadName)?;
    let column = find_known(objects, field, InputKind::UnknownObject)?;
    need(
        !is_stamped(stamps, column, agent),
        InputKind::RepeatedChoice,
    )?;
    list.push(column)?;
    stamps[column as usize] = agent;
    Ok(())
}

/// The columns of the list of an agent, after so many others.
pub(crate) fn read_choices(
    alloc: Global,
    row: &Row,
    objects: &Names,
    others: u32,
    stamps: &mut [u32],
) -> Result<Vec<u32>, Stop>
    requires some { 0 < length row.now }
    requires few { others < 1000 }
    requires stamps { AreStamps (length objects.now) others stamps.old }
    ensures read { Checks result (check_choices objects.now row.now) (λ v. v.items ≡ list_of objects.now row.now) }
    ensures stamps { OnOk result (AreStamps (length objects.now) (others + 1) stamps.new) }
{
    let agent = others + 1;
    let mut list = Vec::new(alloc);
    let mut closed = false;
    for j in 0..row.len() - 1 {
        let choice = row.field(j + 1);
        take_choice(choice, objects, agent, stamps, &mut list, &mut closed)?;
    }
    list.push(objects.len())?;
    Ok(list)
}
