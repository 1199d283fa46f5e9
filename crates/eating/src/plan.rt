// What eating goes over: each agent's list with the limits that hold its cells. Limits count from 0: first the
// stated sets by number, then the capped cells agent by agent. Nothing here knows of moments.

ghost use Rattle.std.specs.Prelude.{◌≡◌, ◌+◌, ◌-◌, ◌<◌, ◌≤◌, ◌^◌, length, map, take, IfOk};
ghost use Rattle.definitions.specs.Trees.{AreTreesOf};
ghost use Rattle.definitions.specs.Values.{demand_at, limits_of, list_at, market_of, stated_sets};
ghost use Rattle.eating.specs.Caps.{caps_before, capped_count};
ghost use Rattle.eating.specs.Holders.{chain_at, holders_in};
ghost use Rattle.eating.specs.Plan.{AreLinesOf, IsLine, IsLineOf, agent_at, holders_at};

use bihierarchy::Trees;
use quota_sets::{Cell, Problem, QuotaSet};
use std::alloc::{AllocError, Global};
use std::marker::Model;

/// An agent's demand, the columns of its list, and for each place the limits that hold its cell.
#[derive(Drop)]
pub(crate) struct Line {
    demand: u32,
    columns: Vec<u32>,
    holders: Vec<Vec<u32>>,
}

impl Model for Line {
    ghost use Rattle.std.specs.Prelude.{map};
    ghost use Rattle.eating.specs.Plan.{LineValue};

    ghost Value = { LineValue };

    ghost view = { λ line. record {
      demand = line.demand;
      columns = line.columns.items;
      holders = map (λ h. h.items) line.holders.items;
    } };
}

impl Line {
    pub fn demand(&self) -> u32
        ensures { result ≡ self.now.demand }
    {
        self.demand
    }

    /// The columns of the list, best first.
    pub fn columns(&self) -> &[u32]
        ensures { result.now ≡ self.now.columns }
    {
        &self.columns
    }

    /// The limits that hold the cell of a place.
    pub fn holders(&self, place: usize) -> &[u32]
        requires { place < length self.now.holders }
        ensures { result.now ≡ holders_at self.now place }
    {
        let holders = &self.holders;
        &holders[place]
    }
}

/// How many cells of an agent are capped: those of the places before the last, where the demand is 2 or more.
fn capped_cells(problem: &Problem, agent: u32) -> u32
    requires { agent < length problem.now.agents }
    ensures { result ≡ capped_count (demand_at problem.now agent) (list_at problem.now agent) }
{
    if problem.demand(agent) < 2 {
        return 0;
    }
    problem.list(agent).len() as u32 - 1
}

/// The stated sets that hold the cell of a place of an agent's list, as limits, from the deepest up.
fn stated_holders(
    alloc: Global,
    problem: &Problem,
    trees: &Trees,
    agent: u32,
    place: usize,
) -> Result<Vec<u32>, AllocError>
    requires trees { AreTreesOf problem.now.family trees.now }
    requires agent { agent < length problem.now.agents }
    requires place { place < length (list_at problem.now agent) }
    ensures { IfOk result (λ holders.
        holders.items ≡ map (λ s. s - 1) (chain_at problem.now trees.now agent place)) }
{
    let cell = Cell {
        agent,
        object: problem.list(agent)[place],
    };
    let mut holders = Vec::new(alloc);
    let mut next = trees.deepest(2, cell);
    while let Some(set) = next {
        holders.push(set - 1)?;
        next = trees.parent(set);
    }
    Ok(holders)
}

/// All limits that hold the cell of a place of an agent's list. The first `caps` places have capped cells, which
/// are the limits from `capped` on.
fn holders_of(
    alloc: Global,
    problem: &Problem,
    trees: &Trees,
    agent: u32,
    place: usize,
    capped: u32,
    caps: u32,
) -> Result<Vec<u32>, AllocError>
    requires trees { AreTreesOf problem.now.family trees.now }
    requires agent { agent < length problem.now.agents }
    requires place { place < length (list_at problem.now agent) }
    requires room { capped + caps < 2 ^ 32 }
    ensures { IfOk result (λ holders.
        holders.items ≡ holders_in problem.now trees.now agent place capped caps) }
{
    let mut holders = stated_holders(alloc, problem, trees, agent, place)?;
    if place < caps as usize {
        holders.push(capped + place as u32)?;
    }
    Ok(holders)
}

/// The line of an agent, whose capped cells are the limits from `capped` on.
fn line_of(
    alloc: Global,
    problem: &Problem,
    trees: &Trees,
    agent: u32,
    capped: u32,
) -> Result<Line, AllocError>
    requires trees { AreTreesOf problem.now.family trees.now }
    requires agent { agent < length problem.now.agents }
    requires capped { capped ≡ problem.now.stated
        + caps_before (take agent (market_of problem.now).agents) }
    requires room { capped + capped_count (demand_at problem.now agent) (list_at problem.now agent)
        ≤ length (limits_of problem.now) }
    ensures line { IfOk result
        (IsLineOf (market_of problem.now) agent (agent_at problem.now agent)) }
    ensures limits { IfOk result (IsLine (length (limits_of problem.now))) }
{
    let list = problem.list(agent);
    let caps = capped_cells(problem, agent);
    let mut columns = Vec::new(alloc);
    let mut holders = Vec::new(alloc);
    for place in 0..list.len() {
        columns.push(list[place])?;
        holders.push(holders_of(alloc, problem, trees, agent, place, capped, caps)?)?;
    }
    Ok(Line {
        demand: problem.demand(agent),
        columns,
        holders,
    })
}

/// The lines of all agents.
pub(crate) fn lines_of(
    alloc: Global,
    problem: &Problem,
    trees: &Trees,
) -> Result<Vec<Line>, AllocError>
    requires { AreTreesOf problem.now.family trees.now }
    ensures { IfOk result (λ lines. AreLinesOf (market_of problem.now) lines.items) }
{
    let mut lines = Vec::new(alloc);
    let mut limits = problem.stated();
    for agent in 0..problem.agents().len() {
        lines.push(line_of(alloc, problem, trees, agent, limits)?)?;
        limits += capped_cells(problem, agent);
    }
    Ok(lines)
}

/// How many cells are capped.
fn capped_total(problem: &Problem) -> usize
    ensures value { result ≡ caps_before (market_of problem.now).agents }
    ensures few { result ≤ 200000 }
{
    let mut total = 0;
    for agent in 0..problem.agents().len() {
        total += capped_cells(problem, agent) as usize;
    }
    total
}

/// A copy of a set.
fn copy_of(alloc: Global, set: &QuotaSet) -> Result<QuotaSet, AllocError>
    ensures { IfOk result (λ copy. copy ≡ set.now) }
{
    let cells = set.cells().to_vec(alloc)?;
    Ok(QuotaSet::new(set.side(), set.floor(), set.ceiling(), cells))
}

/// Copies of the stated sets, by number.
pub(crate) fn stated_copies(alloc: Global, problem: &Problem) -> Result<Vec<QuotaSet>, AllocError>
    ensures { IfOk result (λ sets. sets.items ≡ stated_sets problem.now) }
{
    let mut sets = Vec::new(alloc);
    for set in 1..problem.stated() + 1 {
        sets.push(copy_of(alloc, problem.family().get(set).unwrap())?)?;
    }
    Ok(sets)
}

/// The ceilings of the stated sets, by number.
fn stated_ceilings(alloc: Global, problem: &Problem) -> Result<Vec<u128>, AllocError>
    ensures { IfOk result (λ ceilings.
        ceilings.items ≡ map (λ s. s.ceiling) (stated_sets problem.now)) }
{
    let mut ceilings = Vec::new(alloc);
    for set in 1..problem.stated() + 1 {
        ceilings.push(problem.family().get(set).unwrap().ceiling() as u128)?;
    }
    Ok(ceilings)
}

/// The ceiling of each limit: those of the stated sets by number, and 1 for each capped cell.
pub(crate) fn ceilings_of(alloc: Global, problem: &Problem) -> Result<Vec<u128>, AllocError>
    ensures { IfOk result (λ ceilings.
        ceilings.items ≡ map (λ s. s.ceiling) (limits_of problem.now)) }
{
    let mut ceilings = stated_ceilings(alloc, problem)?;
    let limits = ceilings.len() + capped_total(problem);
    ceilings.resize(limits, 1)?;
    Ok(ceilings)
}
