// The records of a lottery as rows. Where they are written isn't known here.
ghost use Rattle.std.specs.Prelude.{◌≡◌, ◌<◌, ◌∷◌, IfOk};
ghost use Rattle.lottery_file.specs.Written.{give_row, share_row, worth_row};

use quota_sets::{Cell, Give, Names, Scaled};
use std::alloc::Global;
use table_text::{NoMemory, Row};

// A record of a word and names.
pub(crate) fn row_of_names(alloc: Global, word: &[u8], names: &Names) -> Result<Row, NoMemory>
    ensures { IfOk result (λ row. row ≡ word.now ∷ names.now) }
{
    let mut row = Row::new(alloc);
    row.push(word)?;
    for place in 0..names.len() {
        row.push(names.name_at(place).as_bytes())?;
    }
    Ok(row)
}

// The record of an agent's units.
pub(crate) fn row_of_units(
    alloc: Global,
    name: &str,
    agent: u32,
    shares: &Scaled,
) -> Result<Row, NoMemory>
    requires { agent < shares.now.agents }
    ensures { IfOk result (λ row. row ≡ share_row name.now agent shares.now) }
{
    let mut row = Row::new(alloc);
    row.push(b"row")?;
    row.push(name.as_bytes())?;
    for object in 0..shares.columns() {
        row.push_number(shares.at(Cell { agent, object }))?;
    }
    Ok(row)
}

// The record of a place of an agent's list.
pub(crate) fn row_of_worth(
    alloc: Global,
    agent: &str,
    column: &str,
    worth: i64,
) -> Result<Row, NoMemory>
    ensures { IfOk result (λ row. row ≡ worth_row agent.now column.now worth) }
{
    let text = worth.to_string(alloc).map_err(|_| NoMemory)?;
    let mut row = Row::new(alloc);
    row.push(b"worth")?;
    row.push(agent.as_bytes())?;
    row.push(column.as_bytes())?;
    row.push(text.as_bytes())?;
    Ok(row)
}

/// The record of a give, by the names of its agent and its column.
pub fn row_of_give(
    alloc: Global,
    agents: &Names,
    columns: &Names,
    give: Give,
) -> Result<Row, NoMemory>
    ensures { IfOk result (λ row. row ≡ give_row agents.now columns.now give) }
{
    let mut row = Row::new(alloc);
    row.push(b"give")?;
    row.push(agents.name_at(give.agent).as_bytes())?;
    row.push(columns.name_at(give.object).as_bytes())?;
    row.push_number(give.count as u128)?;
    Ok(row)
}
