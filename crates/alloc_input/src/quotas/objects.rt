//! Records of `object`: the quotas of an object's column.

ghost use Rattle.std.specs.Prelude.{◌≡◌, ℕ, List, false, length, IfOk, OnOk};
ghost use Rattle.definitions.specs.Texts.{has_name};
ghost use Rattle.alloc_input.specs.Checks.{Finds};
ghost use Rattle.alloc_input.specs.Stated.{setting_of, add_object};
ghost use Rattle.alloc_input.specs.Quotas.{object_words, check_object};
ghost use Rattle.alloc_input.specs.QuotaRecords.{IsObjectRecord};
ghost use Rattle.alloc_input.specs.Reading.{held, AreQuotas, IsSound, Takes};

use crate::faults::{InputKind, Stop};
use crate::fields::{add_name, find_known, is_null, need, need_new, read_name};
use crate::limits::MOST_OBJECTS;
use crate::quotas::fields::{Quotas, quotas_at, unless_solve};
use crate::quotas::open_sets::{Size, all_numbers, push_rectangle};
use crate::quotas::state::State;
use quota_sets::Names;
use std::alloc::Global;
use table_text::Row;

/// What a record of `object` says.
#[derive(Clone, Copy)]
struct ObjectRecord<'a> {
    name: &'a str,
    column: u32,
    quotas: Quotas,
}

// What a record of `object` says: a name, its column, floor and ceiling.
#[tactic(auto, unfolding(crate::specs::Quotas::object_words))]
fn read_object<'a>(
    row: &'a Row,
    objects: &Names,
    solve: bool,
    state: &State,
) -> Result<ObjectRecord<'a>, InputKind>
    ensures checked { (agents : List (List ℕ)) → let g = setting_of agents objects.now solve in
        Finds result (object_words g (held state.now) row.now) (IsObjectRecord objects.now row.now) }
    ensures fresh { IfOk result (λ r. has_name state.now.columns r.name.now ≡ false) }
    ensures quotas { IfOk result (λ r. AreQuotas 2 r.quotas.floor r.quotas.ceiling) }
{
    let text = row.field_at(1);
    let name = read_name(text)?;
    need(!is_null(text), InputKind::NoneInSet)?;
    let column = find_known(objects, text, InputKind::UnknownName)?;
    need(
        unless_solve(solve, column < MOST_OBJECTS),
        InputKind::OverLimit,
    )?;
    need_new(&state.columns, text, InputKind::RepeatedName)?;
    let quotas = quotas_at(row, 2)?;
    need(
        unless_solve(solve, quotas.floor == 0),
        InputKind::FloorInSolve,
    )?;
    need(quotas.floor <= quotas.ceiling, InputKind::FloorAboveCeiling)?;
    Ok(ObjectRecord {
        name,
        column,
        quotas,
    })
}

/// Takes a record of `object`.
#[tactic(auto, unfolding(crate::specs::Quotas::check_object))]
pub(crate) fn take_object(
    alloc: Global,
    row: &Row,
    agents: &Names,
    objects: &Names,
    solve: bool,
    state: &mut State,
) -> Result<(), Stop>
    requires { IsSound (length agents.now) (length objects.now) state.old }
    ensures checked { Takes check_object add_object (setting_of agents.now objects.now solve)
        state.old row.now result state.new }
    ensures sound { OnOk result (IsSound (length agents.now) (length objects.now) state.new) }
{
    let said = read_object(row, objects, solve, state)?;
    let all = all_numbers(alloc, agents.len())?;
    add_name(&mut state.columns, said.name)?;
    let size = Size {
        agents: agents.len(),
        objects: objects.len(),
    };
    push_rectangle(
        alloc,
        &mut state.sets,
        &mut state.total,
        size,
        2,
        said.quotas,
        &all,
        &[said.column],
    )
}
