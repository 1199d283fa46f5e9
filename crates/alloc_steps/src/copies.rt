//! Copies of what a problem has and of what is eaten in it, in the form in which a lottery has them.

ghost use Rattle.std.specs.Prelude.{◌≡◌, ◌+◌, ◌*◌, ◌<◌, ◌≤◌, ◌++◌, ◌∷◌, [], false, length, take, IfOk, OnOk};
ghost use Rattle.definitions.specs.Texts.{has_name, null_name};
ghost use Rattle.lottery_file.specs.Lotteries.{lists_value};

use quota_sets::{Cell, Names, NoMemory, Problem, Scaled};
use std::alloc::{AllocError, Global};

/// A copy of names, of which there are at most 1,000.
pub(crate) fn names_of(alloc: Global, names: &Names) -> Result<Names, NoMemory>
    requires few { length names.now ≤ 1000 }
    ensures { IfOk result (λ copy. copy ≡ names.now) }
{
    let mut copy = Names::new(alloc);
    for place in 0..names.len() {
        copy.add_copy(names.name_at(place))?;
    }
    Ok(copy)
}

/// The names of the columns: those of the objects in order, and last `none`.
pub(crate) fn columns_of(alloc: Global, objects: &Names) -> Result<Names, NoMemory>
    requires few { length objects.now ≤ 200 }
    requires plain { has_name objects.now null_name ≡ false }
    ensures { IfOk result (λ columns. columns ≡ objects.now ++ null_name ∷ []) }
{
    let mut columns = names_of(alloc, objects)?;
    columns.add_copy("none")?;
    Ok(columns)
}

// Adds the units of an agent's row, column by column.
fn add_row(x: &Scaled, agent: u32, units: &mut Vec<u128>) -> Result<(), AllocError>
    requires agent { agent < x.now.agents }
    requires before { units.old.items ≡ take (agent * x.now.columns) x.now.units }
    ensures { OnOk result (units.new.items ≡ take ((agent + 1) * x.now.columns) x.now.units) }
{
    for object in 0..x.columns() {
        units.push(x.at(Cell { agent, object }))?;
    }
    Ok(())
}

/// A copy of a matrix.
pub(crate) fn shares_of(alloc: Global, x: &Scaled) -> Result<Scaled, NoMemory>
    ensures { IfOk result (λ copy. copy ≡ x.now) }
{
    let mut units = Vec::new(alloc);
    for agent in 0..x.agents() {
        add_row(x, agent, &mut units)?;
    }
    Ok(Scaled::new(x.denominator(), x.agents(), x.columns(), units))
}

/// The lists of a problem's agents, in their order.
pub(crate) fn lists_of(alloc: Global, problem: &Problem) -> Result<Vec<Vec<u32>>, NoMemory>
    ensures { IfOk result (λ lists. lists_value lists.items ≡ problem.now.lists) }
{
    let mut lists = Vec::new(alloc);
    for agent in 0..problem.agents().len() {
        lists.push(problem.list(agent).to_vec(alloc)?)?;
    }
    Ok(lists)
}
