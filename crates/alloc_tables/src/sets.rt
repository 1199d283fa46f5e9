//! `sets`: the stated sets of a problem, with their sizes and parents.

ghost use Rattle.std.specs.Prelude.{◌≡◌, ◌<◌, ◌≤◌, ◌++◌, ◌∷◌, [], length, unwrap_or, IfOk, OnOk};
ghost use Rattle.alloc_outcomes.specs.Steps.{Steps};
ghost use Rattle.alloc_tables.specs.Sets.{numbered_row, set_row, set_rows, sets_text, SetsAnswers};
ghost use Rattle.definitions.specs.Sets.{IsSet};
ghost use Rattle.definitions.specs.Trees.{parent_at};
ghost use Rattle.table_text.specs.Rows.{rows_text};

use alloc_outcomes::{Cause, write_text};
use alloc_readings::{problem_from, trees_from};
use bihierarchy::Trees;
use device_core::Sink;
use quota_sets::{Family, Problem, QuotaSet};
use std::alloc::Global;
use table_text::{NoMemory, Row, put_end, row_bytes};

// The record of a set.
#[tactic(auto, unfolding(crate::specs::Sets::set_row))]
fn row_of_set(alloc: Global, number: u32, set: &QuotaSet, parent: u32) -> Result<Row, NoMemory>
    ensures { IfOk result (λ row. row ≡ set_row number set.now parent) }
{
    let cells = set.cells().len();
    let mut row = Row::new(alloc);
    row.push(b"set")?;
    row.push_number(number as u128)?;
    row.push_number(set.side() as u128)?;
    row.push_number(set.floor() as u128)?;
    row.push_number(set.ceiling() as u128)?;
    row.push_number(cells as u128)?;
    row.push_number(parent as u128)?;
    Ok(row)
}

// The number of a set's parent, and 0 where it has none.
fn parent_number(trees: &Trees, number: u32) -> u32
    requires { (0 < number) × (number ≤ trees.now.sets) }
    ensures { result ≡ unwrap_or (parent_at trees.now number) 0 }
{
    trees.parent(number).unwrap_or(0)
}

// Appends the record of the set with this number.
fn put_set(
    alloc: Global,
    family: &Family,
    trees: &Trees,
    number: u32,
    into: &mut Vec<u8>,
) -> Result<(), NoMemory>
    requires known { IsSet family.now number }
    requires shape { trees.now.sets ≡ length family.now.sets }
    ensures { OnOk result (into.new.items
        ≡ into.old.items ++ rows_text (numbered_row family.now trees.now number ∷ [])) }
{
    let set = family.get(number).unwrap();
    let row = row_of_set(alloc, number, set, parent_number(trees, number))?;
    row_bytes(&row, into)
}

// Appends the records of the first so many sets.
fn put_sets(
    alloc: Global,
    family: &Family,
    trees: &Trees,
    count: u32,
    into: &mut Vec<u8>,
) -> Result<(), NoMemory>
    requires within { count ≤ length family.now.sets }
    requires shape { trees.now.sets ≡ length family.now.sets }
    ensures { OnOk result (into.new.items
        ≡ into.old.items ++ rows_text (set_rows family.now trees.now count)) }
{
    let _sets = family.len();
    for number in 1..count + 1 {
        put_set(alloc, family, trees, number, into)?;
    }
    Ok(())
}

// The text of the stated sets.
fn sets_text(alloc: Global, problem: &Problem, trees: &Trees) -> Result<Vec<u8>, NoMemory>
    requires { trees.now.sets ≡ length problem.now.family.sets }
    ensures { IfOk result (λ text. text.items ≡ sets_text problem.now trees.now) }
{
    let stated = problem.stated();
    let mut text = Vec::new(alloc);
    put_sets(alloc, problem.family(), trees, stated, &mut text)?;
    put_end(alloc, stated as u128, &mut text)?;
    Ok(text)
}

/// `sets PREFS QUOTAS`: the stated sets with their sizes and parents.
pub fn step<K: Sink>(alloc: Global, prefs: &[u8], quotas: &[u8], out: &mut K) -> Result<(), Cause>
    ensures { Steps K.Sink (SetsAnswers prefs.now quotas.now) out.old out.new result }
{
    let problem = problem_from(alloc, prefs, quotas)?;
    let trees = trees_from(alloc, problem.family())?;
    let text = sets_text(alloc, &problem, &trees)?;
    write_text(&text, out)
}
