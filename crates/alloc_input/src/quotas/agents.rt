//! Records of `agent`: the quotas of an agent's row for `decompose`, its demand for `solve`.

ghost use Rattle.std.specs.Prelude.{◌≡◌, ℕ, Bool, List, false, length, IfOk, OnOk};
ghost use Rattle.definitions.specs.Texts.{has_name};
ghost use Rattle.alloc_input.specs.Checks.{Finds};
ghost use Rattle.alloc_input.specs.Stated.{setting_of, add_row, add_demand};
ghost use Rattle.alloc_input.specs.Quotas.{row_words, check_row, demand_words, check_demand};
ghost use Rattle.alloc_input.specs.QuotaRecords.{IsDemandRecord, IsRowRecord};
ghost use Rattle.alloc_input.specs.Reading.{held, AreQuotas, IsSound, Takes};

use crate::faults::{InputKind, Stop};
use crate::fields::{add_name, find_known, need, need_new, read_name};
use crate::quotas::demands::set_demand;
use crate::quotas::fields::{Quotas, quotas_at};
use crate::quotas::open_sets::{Size, all_numbers, push_rectangle};
use crate::quotas::state::State;
use quota_sets::Names;
use std::alloc::Global;
use table_text::Row;

/// What a record of `agent` says for `decompose`.
#[derive(Clone, Copy)]
struct RowRecord<'a> {
    name: &'a str,
    agent: u32,
    quotas: Quotas,
}

/// What a record of `agent` says for `solve`.
#[derive(Clone, Copy)]
struct DemandRecord<'a> {
    name: &'a str,
    agent: u32,
    demand: u32,
}

// What a record of `agent` says for `decompose`: a name, its row, floor and ceiling.
#[tactic(auto, unfolding(crate::specs::Quotas::row_words))]
fn read_row<'a>(row: &'a Row, agents: &Names, state: &State) -> Result<RowRecord<'a>, InputKind>
    ensures checked { (objects : List (List ℕ)) (solve : Bool) → let g = setting_of agents.now objects solve in
        Finds result (row_words g (held state.now) row.now) (IsRowRecord agents.now row.now) }
    ensures fresh { IfOk result (λ r. has_name state.now.rows r.name.now ≡ false) }
    ensures quotas { IfOk result (λ r. AreQuotas 1 r.quotas.floor r.quotas.ceiling) }
{
    let text = row.field_at(1);
    let name = read_name(text)?;
    let agent = find_known(agents, text, InputKind::UnknownName)?;
    need_new(&state.rows, text, InputKind::RepeatedName)?;
    let quotas = quotas_at(row, 2)?;
    need(quotas.floor <= quotas.ceiling, InputKind::FloorAboveCeiling)?;
    Ok(RowRecord {
        name,
        agent,
        quotas,
    })
}

/// Takes a record of `agent` for `decompose`.
#[tactic(auto, unfolding(crate::specs::Quotas::check_row))]
pub(crate) fn take_row(
    alloc: Global,
    row: &Row,
    agents: &Names,
    objects: &Names,
    solve: bool,
    state: &mut State,
) -> Result<(), Stop>
    requires { IsSound (length agents.now) (length objects.now) state.old }
    ensures checked { Takes check_row add_row (setting_of agents.now objects.now solve)
        state.old row.now result state.new }
    ensures sound { OnOk result (IsSound (length agents.now) (length objects.now) state.new) }
{
    let said = read_row(row, agents, state)?;
    let all = all_numbers(alloc, objects.len())?;
    add_name(&mut state.rows, said.name)?;
    let size = Size {
        agents: agents.len(),
        objects: objects.len(),
    };
    push_rectangle(
        alloc,
        &mut state.sets,
        &mut state.total,
        size,
        1,
        said.quotas,
        &[said.agent],
        &all,
    )
}

// What a record of `agent` says for `solve`: a name, an agent and its demand.
#[tactic(auto, unfolding(crate::specs::Quotas::demand_words))]
fn read_demand<'a>(
    row: &'a Row,
    agents: &Names,
    state: &State,
) -> Result<DemandRecord<'a>, InputKind>
    ensures checked { (objects : List (List ℕ)) (solve : Bool) → let g = setting_of agents.now objects solve in
        Finds result (demand_words g (held state.now) row.now) (IsDemandRecord agents.now row.now) }
    ensures fresh { IfOk result (λ r. has_name state.now.rows r.name.now ≡ false) }
{
    let text = row.field_at(1);
    let name = read_name(text)?;
    let agent = find_known(agents, text, InputKind::UnknownName)?;
    need_new(&state.rows, text, InputKind::RepeatedName)?;
    let quotas = quotas_at(row, 2)?;
    need(quotas.floor == quotas.ceiling, InputKind::RowInSolve)?;
    need(1 <= quotas.floor, InputKind::RowInSolve)?;
    Ok(DemandRecord {
        name,
        agent,
        demand: quotas.floor,
    })
}

/// Takes a record of `agent` for `solve`.
#[tactic(auto, unfolding(crate::specs::Quotas::check_demand))]
pub(crate) fn take_demand(
    row: &Row,
    agents: &Names,
    objects: &Names,
    solve: bool,
    state: &mut State,
) -> Result<(), Stop>
    requires { IsSound (length agents.now) (length objects.now) state.old }
    ensures checked { Takes check_demand add_demand (setting_of agents.now objects.now solve)
        state.old row.now result state.new }
    ensures sound { OnOk result (IsSound (length agents.now) (length objects.now) state.new) }
{
    let said = read_demand(row, agents, state)?;
    add_name(&mut state.rows, said.name)?;
    set_demand(&mut state.demands, said.agent, said.demand)?;
    Ok(())
}
