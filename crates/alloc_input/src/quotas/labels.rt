//! Records of `group` and `bundle`: names for some agents or objects.

ghost use Rattle.std.specs.Prelude.{◌≡◌, ◌≤◌, ◌∷◌, ◌++◌, [], ℕ, List, Bool, length, drop, OnOk};
ghost use Rattle.std.specs.List.{filter_map};
ghost use Rattle.alloc_input.specs.Checks.{Checks};
ghost use Rattle.alloc_input.specs.Stated.{setting_of, member_of, members_of, add_group, add_bundle};
ghost use Rattle.alloc_input.specs.Quotas.{check_member, check_members, check_group, check_bundle};
ghost use Rattle.alloc_input.specs.Reading.{held};

use crate::faults::{InputKind, Stop};
use crate::fields::{add_name, find_known, is_null, need, need_new, read_name};
use crate::quotas::numbers::distinct;
use crate::quotas::state::State;
use quota_sets::Names;
use std::alloc::Global;
use table_text::Row;

/// Takes a record of `group`.
#[tactic(auto, unfolding(crate::specs::Quotas::check_group, crate::specs::Stated::add_group))]
pub(crate) fn take_group(
    alloc: Global,
    row: &Row,
    agents: &Names,
    state: &mut State,
) -> Result<(), Stop>
    requires { 2 ≤ length row.now }
    ensures checked { (objects : List (List ℕ)) (solve : Bool) → let g = setting_of agents.now objects solve in
        Checks result (check_group g (held state.old) row.now) (λ _. held state.new ≡ add_group g (held state.old) row.now) }
    ensures kept { OnOk result ((state.new.sets ≡ state.old.sets) × (state.new.total ≡ state.old.total)) }
{
    let text = row.field_at(1);
    let name = read_name(text)?;
    need_new(agents, text, InputKind::RepeatedName)?;
    need_new(&state.groups, text, InputKind::RepeatedName)?;
    let members = read_members(alloc, row, agents, false)?;
    state.members.push(members)?;
    add_name(&mut state.groups, name)?;
    Ok(())
}

/// Takes a record of `bundle`.
#[tactic(auto, unfolding(crate::specs::Quotas::check_bundle, crate::specs::Stated::add_bundle))]
pub(crate) fn take_bundle(
    alloc: Global,
    row: &Row,
    objects: &Names,
    state: &mut State,
) -> Result<(), Stop>
    requires { 2 ≤ length row.now }
    ensures checked { (agents : List (List ℕ)) (solve : Bool) → let g = setting_of agents objects.now solve in
        Checks result (check_bundle g (held state.old) row.now) (λ _. held state.new ≡ add_bundle g (held state.old) row.now) }
    ensures kept { OnOk result ((state.new.sets ≡ state.old.sets) × (state.new.total ≡ state.old.total)) }
{
    let text = row.field_at(1);
    let name = read_name(text)?;
    need(!is_null(text), InputKind::NoneInSet)?;
    need_new(objects, text, InputKind::RepeatedName)?;
    need_new(&state.bundles, text, InputKind::RepeatedName)?;
    let members = read_members(alloc, row, objects, true)?;
    state.contents.push(members)?;
    add_name(&mut state.bundles, name)?;
    Ok(())
}

// The members of a group or bundle, each once.
fn read_members(alloc: Global, row: &Row, names: &Names, bundle: bool) -> Result<Vec<u32>, Stop>
    requires { 2 ≤ length row.now }
    ensures { Checks result (check_members bundle names.now row.now) (λ v. v.items ≡ members_of names.now row.now) }
{
    let named = read_named(alloc, row, names, bundle)?;
    let members = distinct(alloc, names.len(), &named)?;
    Ok(members)
}

// The members that a group or bundle names, one after the other.
fn read_named(alloc: Global, row: &Row, names: &Names, bundle: bool) -> Result<Vec<u32>, Stop>
    requires { 2 ≤ length row.now }
    ensures { Checks result (check_members bundle names.now row.now) (λ v. v.items ≡ filter_map (member_of names.now) (drop 2 row.now)) }
{
    let mut list = Vec::new(alloc);
    for j in 0..row.len() - 2 {
        take_member(row.field_at(j + 2), names, bundle, &mut list)?;
    }
    Ok(list)
}

// Takes one more member of a group or bundle.
#[tactic(auto, unfolding(crate::specs::Quotas::check_member))]
fn take_member(text: &[u8], names: &Names, bundle: bool, list: &mut Vec<u32>) -> Result<(), Stop>
    ensures { Checks result (check_member bundle names.now text.now) (λ _. list.new.items ≡ list.old.items ++ filter_map (member_of names.now) (text.now ∷ [])) }
{
    if text.is_empty() {
        return Ok(());
    }
    if bundle {
        need(!is_null(text), InputKind::NoneInSet)?;
    }
    let member = find_known(names, text, InputKind::UnknownName)?;
    list.push(member)?;
    Ok(())
}
