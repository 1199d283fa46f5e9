//! `envy`: who envies whom in a lottery that is sound for a problem.

ghost use Rattle.std.specs.Prelude.{◌≡◌, ◌++◌, length, map, IfOk, OnOk};
ghost use Rattle.alloc_audits.specs.Envy.{EnvyAnswers, envy_due, envy_row, envy_text};
ghost use Rattle.alloc_outcomes.specs.Answers.{IsText};
ghost use Rattle.alloc_outcomes.specs.Steps.{Steps};
ghost use Rattle.definitions.specs.Values.{column_count};
ghost use Rattle.definitions.specs.Sets.{units_of};
ghost use Rattle.fairness_core.specs.Envy.{all_envies};
ghost use Rattle.lottery_file.specs.Lotteries.{lottery_value};
ghost use Rattle.lottery_laws.specs.Sound.{IsSound};
ghost use Rattle.table_text.specs.Rows.{rows_text};

use crate::audit::check_lottery;
use alloc_outcomes::{Cause, write_text};
use alloc_readings::{lottery_from, problem_from, trees_from};
use device_core::Sink;
use fairness_core::{Envy, envy_list};
use lottery_file::Lottery;
use quota_sets::{Names, Problem, Scaled};
use std::alloc::Global;
use table_text::{NoMemory, Row, put_end, row_bytes};

// The record of an entry.
#[tactic(auto, unfolding(crate::specs::Envy::envy_row))]
fn row_of_entry(alloc: Global, agents: &Names, entry: Envy) -> Result<Row, NoMemory>
    ensures { IfOk result (λ row. row ≡ envy_row agents.now entry) }
{
    let mut row = Row::new(alloc);
    row.push(b"envy")?;
    row.push(agents.name_at(entry.from).as_bytes())?;
    row.push(agents.name_at(entry.to).as_bytes())?;
    row.push_number(entry.point.place as u128)?;
    row.push_number(entry.point.own)?;
    row.push_number(entry.point.other)?;
    Ok(row)
}

// Appends the records of entries.
fn put_entries(
    alloc: Global,
    agents: &Names,
    entries: &[Envy],
    into: &mut Vec<u8>,
) -> Result<(), NoMemory>
    ensures { OnOk result (into.new.items
        ≡ into.old.items ++ rows_text (map (envy_row agents.now) entries.now)) }
{
    for entry in entries {
        let row = row_of_entry(alloc, agents, *entry)?;
        row_bytes(&row, into)?;
    }
    Ok(())
}

// The text of entries.
fn entries_text(alloc: Global, agents: &Names, entries: &[Envy]) -> Result<Vec<u8>, NoMemory>
    ensures { IfOk result (λ text. text.items ≡ envy_text agents.now entries.now) }
{
    let mut text = Vec::new(alloc);
    put_entries(alloc, agents, entries, &mut text)?;
    put_end(alloc, entries.len() as u128, &mut text)?;
    Ok(text)
}

// The text of who envies whom at these shares.
fn envy_of_shares(alloc: Global, problem: &Problem, shares: &Scaled) -> Result<Vec<u8>, NoMemory>
    requires agents { shares.now.agents ≡ length problem.now.agents }
    requires columns { shares.now.columns ≡ column_count problem.now }
    ensures { IfOk result (λ text. text.items
        ≡ envy_text problem.now.agents (all_envies problem.now (units_of shares.now))) }
{
    let Ok(found) = envy_list(alloc, problem, shares) else {
        return Err(NoMemory);
    };
    entries_text(alloc, problem.agents(), &found.list)
}

// Writes who envies whom in a lottery that is sound for the problem.
fn write_envy<K: Sink>(
    alloc: Global,
    problem: &Problem,
    lottery: &Lottery,
    out: &mut K,
) -> Result<(), Cause>
    requires { IsSound problem.now (lottery_value lottery.now) }
    ensures { Steps K.Sink (IsText (envy_due problem.now (lottery_value lottery.now)))
        out.old out.new result }
{
    let text = envy_of_shares(alloc, problem, &lottery.shares)?;
    write_text(&text, out)
}

/// `envy PREFS QUOTAS LOTTERY`: who envies whom, where the lottery is sound for the problem.
pub fn step<K: Sink>(
    alloc: Global,
    prefs: &[u8],
    quotas: &[u8],
    bytes: &[u8],
    out: &mut K,
) -> Result<(), Cause>
    ensures { Steps K.Sink (EnvyAnswers prefs.now quotas.now bytes.now) out.old out.new result }
{
    let problem = problem_from(alloc, prefs, quotas)?;
    trees_from(alloc, problem.family())?;
    let lottery = lottery_from(alloc, bytes)?;
    check_lottery(alloc, &problem, &lottery)?;
    write_envy(alloc, &problem, &lottery, out)
}
