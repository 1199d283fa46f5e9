// The members of the summary, as JSON has them.

ghost use Rattle.std.specs.Prelude.{◌≡◌, decimal, length, IfOk, OnOk};
ghost use Rattle.alloc_report.specs.Summary.{expected_of, summary_of};
ghost use Rattle.lottery_file.specs.Lotteries.{lottery_value};
ghost use Rattle.serde_json.specs.Data.{string, put as with_member};
ghost use Rattle.serde_json.specs.View.{members_view, view};

use crate::numbers::{greatest_weight, least_weight, units_in};
use lottery_file::Lottery;
use quota_sets::NoMemory;
use serde_json::{Map, Value, put};
use std::alloc::Global;

// Puts a number as text under a name.
fn put_text_of(
    alloc: Global,
    members: &mut Map<String, Value>,
    name: &str,
    number: u128,
) -> Result<(), NoMemory>
    ensures { OnOk result (members_view members.new.entries
        ≡ with_member name.now (string (decimal number)) (members_view members.old.entries)) }
{
    let text = format!(in alloc; "{number}")?;
    put(members, alloc, name, Value::String(text))?;
    Ok(())
}

// Each column's name with the sum of its units.
fn expected_of(alloc: Global, lottery: &Lottery) -> Result<Map<String, Value>, NoMemory>
    requires rows { lottery.now.shares.agents ≡ length lottery.now.agents }
    requires columns { lottery.now.shares.columns ≡ length lottery.now.columns }
    ensures { IfOk result (λ members. members_view members.entries
        ≡ expected_of (lottery_value lottery.now)) }
{
    let mut members = Map::new(alloc);
    for column in 0..lottery.columns.len() {
        let units = units_in(lottery, column);
        put_text_of(alloc, &mut members, lottery.columns.name_at(column), units)?;
    }
    Ok(members)
}

/// All members of a lottery's summary.
pub fn summary_of(alloc: Global, lottery: &Lottery) -> Result<Value, NoMemory>
    requires rows { lottery.now.shares.agents ≡ length lottery.now.agents }
    requires columns { lottery.now.shares.columns ≡ length lottery.now.columns }
    ensures { IfOk result (λ value. view value ≡ summary_of (lottery_value lottery.now)) }
{
    let pieces = &lottery.pieces.list;
    let agents = Value::from(lottery.agents.len());
    let columns = Value::from(lottery.columns.len());
    let expected = Value::Object(expected_of(alloc, lottery)?);
    let priced = Value::from(lottery.prices.is_some());
    let mut all = Map::new(alloc);
    put(&mut all, alloc, "agents", agents)?;
    put(&mut all, alloc, "columns", columns)?;
    put_text_of(alloc, &mut all, "denominator", lottery.shares.denominator())?;
    put(&mut all, alloc, "expected", expected)?;
    put_text_of(alloc, &mut all, "greatest_weight", greatest_weight(pieces))?;
    put_text_of(alloc, &mut all, "least_weight", least_weight(pieces))?;
    put(&mut all, alloc, "pieces", Value::from(pieces.len()))?;
    put(&mut all, alloc, "priced", priced)?;
    Ok(Value::Object(all))
}
