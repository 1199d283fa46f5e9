//! `table`: what is eaten in a problem, by moments and by agents.

ghost use Rattle.std.specs.Prelude.{◌≡◌, ◌<◌, ◌++◌, ◌∷◌, [], length, IfOk, OnOk};
ghost use Rattle.alloc_outcomes.specs.Steps.{Steps};
ghost use Rattle.alloc_tables.specs.Table.{columns_row, eaten_row, eaten_rows, eaten_text, head_rows};
ghost use Rattle.alloc_tables.specs.Table.{moment_rows, unit_fields, units_in, TableAnswers};
ghost use Rattle.eating.specs.Answers.{IsEaten};
ghost use Rattle.table_text.specs.Rows.{rows_text};

use alloc_outcomes::{Cause, write_text};
use alloc_readings::{eaten_from, problem_from, trees_from};
use device_core::Sink;
use eating::Eaten;
use quota_sets::{Cell, Names, Problem, Scaled};
use std::alloc::Global;
use table_text::{NoMemory, Row, put_end, put_number, put_two, row_bytes};

// Adds names as the last fields.
fn push_names(row: &mut Row, names: &Names) -> Result<(), NoMemory>
    ensures { OnOk result (row.new ≡ row.old ++ names.now) }
{
    for place in 0..names.len() {
        row.push(names.name_at(place).as_bytes())?;
    }
    Ok(())
}

// The record of the columns.
fn columns_row(alloc: Global, objects: &Names) -> Result<Row, NoMemory>
    ensures { IfOk result (λ row. row ≡ columns_row objects.now) }
{
    let mut row = Row::new(alloc);
    row.push(b"objects")?;
    push_names(&mut row, objects)?;
    row.push(b"none")?;
    Ok(row)
}

// Appends the record of the columns.
fn put_columns(alloc: Global, objects: &Names, into: &mut Vec<u8>) -> Result<(), NoMemory>
    ensures { OnOk result (into.new.items
        ≡ into.old.items ++ rows_text (columns_row objects.now ∷ [])) }
{
    let row = columns_row(alloc, objects)?;
    row_bytes(&row, into)
}

// Appends the records before the moments.
fn put_head(
    alloc: Global,
    denominator: u128,
    objects: &Names,
    into: &mut Vec<u8>,
) -> Result<(), NoMemory>
    ensures { OnOk result (into.new.items
        ≡ into.old.items ++ rows_text (head_rows denominator objects.now)) }
{
    put_number(alloc, b"table", 1, into)?;
    put_number(alloc, b"denominator", denominator, into)?;
    put_columns(alloc, objects, into)?;
    Ok(())
}

// Appends the records of the moments.
fn put_moments(alloc: Global, moments: &[u128], into: &mut Vec<u8>) -> Result<(), NoMemory>
    ensures { OnOk result (into.new.items
        ≡ into.old.items ++ rows_text (moment_rows moments.now (length moments.now))) }
{
    for (i, moment) in moments.iter().enumerate() {
        put_two(alloc, b"moment", i as u128 + 1, *moment, into)?;
    }
    Ok(())
}

// Adds an agent's units of every column as the last fields.
fn push_units(row: &mut Row, shares: &Scaled, agent: u32) -> Result<(), NoMemory>
    requires { agent < shares.now.agents }
    ensures { OnOk result (row.new
        ≡ row.old ++ unit_fields (units_in shares.now) agent shares.now.columns) }
{
    for column in 0..shares.columns() {
        let cell = Cell {
            agent,
            object: column,
        };
        row.push_number(shares.at(cell))?;
    }
    Ok(())
}

// The record of an agent.
fn agent_row(alloc: Global, agents: &Names, shares: &Scaled, agent: u32) -> Result<Row, NoMemory>
    requires { agent < shares.now.agents }
    ensures { IfOk result (λ row. row ≡ eaten_row agents.now shares.now agent) }
{
    let mut row = Row::new(alloc);
    row.push(b"row")?;
    row.push(agents.name_at(agent).as_bytes())?;
    push_units(&mut row, shares, agent)?;
    Ok(row)
}

// Appends the record of an agent.
fn put_agent(
    alloc: Global,
    agents: &Names,
    shares: &Scaled,
    agent: u32,
    into: &mut Vec<u8>,
) -> Result<(), NoMemory>
    requires { agent < shares.now.agents }
    ensures { OnOk result (into.new.items
        ≡ into.old.items ++ rows_text (eaten_row agents.now shares.now agent ∷ [])) }
{
    let row = agent_row(alloc, agents, shares, agent)?;
    row_bytes(&row, into)
}

// Appends the records of the agents.
fn put_agents(
    alloc: Global,
    agents: &Names,
    shares: &Scaled,
    into: &mut Vec<u8>,
) -> Result<(), NoMemory>
    requires { shares.now.agents ≡ length agents.now }
    ensures { OnOk result (into.new.items
        ≡ into.old.items ++ rows_text (eaten_rows agents.now shares.now (length agents.now))) }
{
    for agent in 0..agents.len() {
        put_agent(alloc, agents, shares, agent, into)?;
    }
    Ok(())
}

// The text of what is eaten in a problem.
fn eaten_text(alloc: Global, problem: &Problem, eaten: &Eaten) -> Result<Vec<u8>, NoMemory>
    requires { IsEaten problem.now eaten.now }
    ensures { IfOk result (λ text. text.items ≡ eaten_text problem.now eaten.now) }
{
    let agents = problem.agents();
    let shares = eaten.shares();
    let mut text = Vec::new(alloc);
    put_head(alloc, shares.denominator(), problem.objects(), &mut text)?;
    put_moments(alloc, eaten.moments(), &mut text)?;
    put_agents(alloc, agents, shares, &mut text)?;
    put_end(alloc, agents.len() as u128, &mut text)?;
    Ok(text)
}

/// `table PREFS QUOTAS`: the eating table.
pub fn step<K: Sink>(alloc: Global, prefs: &[u8], quotas: &[u8], out: &mut K) -> Result<(), Cause>
    ensures { Steps K.Sink (TableAnswers prefs.now quotas.now) out.old out.new result }
{
    let problem = problem_from(alloc, prefs, quotas)?;
    let trees = trees_from(alloc, problem.family())?;
    let eaten = eaten_from(alloc, &problem, &trees)?;
    let text = eaten_text(alloc, &problem, &eaten)?;
    write_text(&text, out)
}
