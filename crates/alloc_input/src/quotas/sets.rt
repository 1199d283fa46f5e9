//! Records of `set` and `in`: a set by its name, and cells that it holds besides.

ghost use Rattle.std.specs.Prelude.{◌≡◌, ℕ, List, Bool, false, length, IfOk, OnOk, option_map};
ghost use Rattle.definitions.specs.Texts.{has_name};
ghost use Rattle.alloc_input.specs.Checks.{Checks, Finds};
ghost use Rattle.alloc_input.specs.Stated.{setting_of, numbers_named, place_named, add_set, add_cells};
ghost use Rattle.alloc_input.specs.Quotas.{set_words, check_set, in_words, check_in};
ghost use Rattle.alloc_input.specs.QuotaRecords.{IsInRecord, IsSetRecord};
ghost use Rattle.alloc_input.specs.Reading.{held, lists, AreQuotas, IsSound, Takes};

use crate::faults::{InputKind, Stop};
use crate::fields::{add_name, is_null, need, need_new, read_name};
use crate::quotas::fields::{Quotas, quotas_at, side, unless_solve};
use crate::quotas::open_sets::{Size, all_numbers, grow, next_place, push_empty};
use crate::quotas::state::State;
use quota_sets::Names;
use std::alloc::{AllocError, Global};
use table_text::{Row, is_word};

/// What a record of `set` says.
#[derive(Clone, Copy)]
struct SetRecord<'a> {
    name: &'a str,
    side: u8,
    quotas: Quotas,
}

/// What a record of `in` says: the place of a set, agents and columns.
#[derive(Drop)]
struct InRecord {
    place: u32,
    agents: Vec<u32>,
    columns: Vec<u32>,
}

// What a record of `set` says: a name, its side, floor and ceiling.
#[tactic(auto, unfolding(crate::specs::Quotas::set_words))]
fn read_set<'a>(row: &'a Row, solve: bool, state: &State) -> Result<SetRecord<'a>, InputKind>
    ensures checked { (agents objects : List (List ℕ)) → let g = setting_of agents objects solve in
        Finds result (set_words g (held state.now) row.now) (IsSetRecord row.now) }
    ensures fresh { IfOk result (λ r. has_name state.now.names r.name.now ≡ false) }
    ensures quotas { IfOk result (λ r. AreQuotas r.side r.quotas.floor r.quotas.ceiling) }
{
    let text = row.field_at(1);
    let name = read_name(text)?;
    need_new(&state.names, text, InputKind::RepeatedName)?;
    let side = side(row.field_at(2));
    need(side != 0, InputKind::BadNumber)?;
    need(unless_solve(solve, side == 2), InputKind::SideInSolve)?;
    let quotas = quotas_at(row, 3)?;
    need(
        unless_solve(solve, quotas.floor == 0),
        InputKind::FloorInSolve,
    )?;
    need(quotas.floor <= quotas.ceiling, InputKind::FloorAboveCeiling)?;
    Ok(SetRecord { name, side, quotas })
}

/// Takes a record of `set`.
#[tactic(auto, unfolding(crate::specs::Quotas::check_set))]
pub(crate) fn take_set(
    alloc: Global,
    row: &Row,
    agents: &Names,
    objects: &Names,
    solve: bool,
    state: &mut State,
) -> Result<(), Stop>
    requires { IsSound (length agents.now) (length objects.now) state.old }
    ensures checked { Takes check_set add_set (setting_of agents.now objects.now solve)
        state.old row.now result state.new }
    ensures sound { OnOk result (IsSound (length agents.now) (length objects.now) state.new) }
{
    let said = read_set(row, solve, state)?;
    let place = next_place(&state.sets);
    state.places.push(place)?;
    add_name(&mut state.names, said.name)?;
    let size = Size {
        agents: agents.len(),
        objects: objects.len(),
    };
    push_empty(
        alloc,
        &mut state.sets,
        state.total,
        size,
        said.side,
        said.quotas,
    )
}

// The numbers that a word names: all, that of a name, or those of a list.
#[tactic(auto, unfolding(crate::specs::Stated::numbers_named))]
fn numbers_of(
    alloc: Global,
    names: &Names,
    labels: &Names,
    members: &[Vec<u32>],
    text: &[u8],
) -> Result<Option<Vec<u32>>, AllocError>
    ensures { IfOk result (λ o. option_map (λ v. v.items) o ≡ numbers_named names.now labels.now (lists members.now) text.now) }
{
    if is_word(text, b"*") {
        return Ok(Some(all_numbers(alloc, names.len())?));
    }
    if let Some(k) = names.find_bytes(text) {
        return Ok(Some(Vec::from_slice(alloc, &[k])?));
    }
    let Some(j) = labels.find_bytes(text) else {
        return Ok(None);
    };
    let Some(list) = members.get(j as usize) else {
        return Ok(None);
    };
    Ok(Some(Vec::from_slice(alloc, list)?))
}

// The place of the set that a record of `in` names.
fn read_place(row: &Row, state: &State) -> Option<u32>
    ensures { result ≡ place_named (held state.now) row.now }
{
    let j = state.names.find_bytes(row.field_at(1))?;
    let place = state.places.get(j as usize)?;
    Some(*place)
}

// What a record of `in` says: the place of a set, agents and columns.
#[tactic(auto, unfolding(crate::specs::Quotas::in_words))]
fn read_in(
    alloc: Global,
    row: &Row,
    agents: &Names,
    objects: &Names,
    state: &State,
) -> Result<InRecord, Stop>
    ensures { (solve : Bool) → let g = setting_of agents.now objects.now solve in
        Checks result (in_words g (held state.now) row.now) (IsInRecord g (held state.now) row.now) }
{
    let place = read_place(row, state).ok_or(InputKind::UnknownName)?;
    let text = row.field_at(2);
    let named = numbers_of(alloc, agents, &state.groups, &state.members, text)?;
    let agents = named.ok_or(InputKind::UnknownName)?;
    let text = row.field_at(3);
    need(!is_null(text), InputKind::NoneInSet)?;
    let named = numbers_of(alloc, objects, &state.bundles, &state.contents, text)?;
    let columns = named.ok_or(InputKind::UnknownName)?;
    Ok(InRecord {
        place,
        agents,
        columns,
    })
}

/// Takes a record of `in`.
#[tactic(auto, unfolding(crate::specs::Quotas::check_in))]
pub(crate) fn take_in(
    alloc: Global,
    row: &Row,
    agents: &Names,
    objects: &Names,
    solve: bool,
    state: &mut State,
) -> Result<(), Stop>
    requires { IsSound (length agents.now) (length objects.now) state.old }
    ensures checked { Takes check_in add_cells (setting_of agents.now objects.now solve)
        state.old row.now result state.new }
    ensures sound { OnOk result (IsSound (length agents.now) (length objects.now) state.new) }
{
    let said = read_in(alloc, row, agents, objects, state)?;
    let size = Size {
        agents: agents.len(),
        objects: objects.len(),
    };
    grow(
        alloc,
        &mut state.sets,
        &mut state.total,
        size,
        said.place,
        &said.agents,
        &said.columns,
    )
}
