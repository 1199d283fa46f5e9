// The fields of the records of agents, of objects and of rows, one after the other.
ghost use Rattle.std.specs.Prelude.{◌≡◌, ◌<◌, ◌≤◌, ◌∷◌, ◌++◌, [], false, length, map, drop, sum, is_some};
ghost use Rattle.definitions.specs.Firsts.{first_among};
ghost use Rattle.definitions.specs.Texts.{has_name, name_index, number};
ghost use Rattle.lottery_file.specs.Checks.{check_agent_name, check_column_name, check_entries};
ghost use Rattle.lottery_file.specs.Reading.{Checks};

use crate::checks::read_entry;
use crate::faults::{LotteryKind, Stop, need};
use crate::totals::Units;
use quota_sets::Names;
use std::alloc::Global;
use table_text::{Row, is_word, name_of};

fn is_taken(names: &Names, name: &[u8]) -> bool
    ensures found { result ≡ is_some (name_index names.now name.now) }
    ensures free { result ≡ false → has_name names.now name.now ≡ false }
{
    names.find_bytes(name).is_some()
}

#[tactic(auto, unfolding(crate::specs::Checks::check_agent_name))]
fn take_agent_name(field: &[u8], names: &mut Names) -> Result<(), Stop>
    ensures { Checks result (check_agent_name names.old field.now)
        (λ _. names.new ≡ names.old ++ field.now ∷ []) }
{
    let name = name_of(field).ok_or(LotteryKind::BadName)?;
    need(!is_taken(names, field), LotteryKind::BadName)?;
    need(names.len() < 1000, LotteryKind::OverLimit)?;
    names.add_copy(name)?;
    Ok(())
}

// The names of the record of agents.
pub(crate) fn read_agents(alloc: Global, row: &Row) -> Result<Names, Stop>
    requires { 0 < length row.now }
    ensures { Checks result (first_among check_agent_name (drop 1 row.now))
        (λ v. v ≡ drop 1 row.now) }
{
    let mut names = Names::new(alloc);
    for j in 0..row.len() - 1 {
        take_agent_name(row.field(j + 1), &mut names)?;
    }
    Ok(names)
}

#[tactic(auto, unfolding(crate::specs::Checks::check_column_name))]
fn take_column_name(field: &[u8], names: &mut Names) -> Result<(), Stop>
    requires { length names.old ≤ 201 }
    ensures { Checks result (check_column_name names.old field.now)
        (λ _. names.new ≡ names.old ++ field.now ∷ []) }
{
    let name = name_of(field).ok_or(LotteryKind::BadName)?;
    need(!is_taken(names, field), LotteryKind::BadName)?;
    need(!is_taken(names, b"none"), LotteryKind::BadName)?;
    let has_room = is_word(field, b"none") || names.len() < 200;
    need(has_room, LotteryKind::OverLimit)?;
    names.add_copy(name)?;
    Ok(())
}

// The names of the record of objects.
pub(crate) fn read_columns(alloc: Global, row: &Row) -> Result<Names, Stop>
    requires { 0 < length row.now }
    ensures { Checks result (first_among check_column_name (drop 1 row.now))
        (λ v. v ≡ drop 1 row.now) }
{
    let mut names = Names::new(alloc);
    for j in 0..row.len() - 1 {
        take_column_name(row.field(j + 1), &mut names)?;
    }
    Ok(names)
}

// The entries of a row.
pub(crate) fn read_entries(row: &Row, limit: u128, units: &mut Units) -> Result<(), Stop>
    requires { 2 ≤ length row.now }
    ensures { Checks result (check_entries limit (sum units.old) (drop 2 row.now))
        (λ _. units.new ≡ units.old ++ map number (drop 2 row.now)) }
{
    for j in 0..row.len() - 2 {
        let entry = read_entry(row.field(j + 2), limit, units.total())?;
        units.push(entry)?;
    }
    Ok(())
}
