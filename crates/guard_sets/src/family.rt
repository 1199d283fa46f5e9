//! The guarded family.

ghost use Rattle.std.specs.Prelude.{◌≡◌, ◌+◌, ◌<◌, ◌≤◌, ◌++◌, [], ◌∷◌, length, IfOk, IfErr, OnOk};
ghost use Rattle.definitions.specs.Sets.{IsFamily, IsInRange, cells_in, units_of};
ghost use Rattle.definitions.specs.Values.{IsProblem, column_count, list_at};
ghost use Rattle.definitions.specs.Assignment.{IsRandomAssignment};
ghost use Rattle.definitions.specs.Fairness.{guarded_family};
ghost use Rattle.guard_sets.specs.Guard.{FitsGuard, IsAssigned, IsGuardFault, fronts_of, triangle};

use crate::fault::GuardFault;
use crate::front::front_set;
use crate::size::{guard_size, is_allowed};
use quota_sets::{Family, InsertFault, NoMemory, Problem, QuotaSet, Scaled};
use std::alloc::Global;

// Adds a set for which there is room.
fn add(family: &mut Family, set: QuotaSet) -> Result<(), NoMemory>
    requires inside { IsInRange family.old.agents family.old.columns set }
    requires sets { length family.old.sets < 2000 }
    requires cells { cells_in family.old.sets + length set.cells ≤ 1201000 }
    ensures { OnOk result (family.new
        ≡ record family.old { sets = family.old.sets ++ set ∷ [] }) }
{
    match family.insert(set) {
        Ok(_) => Ok(()),
        Err(InsertFault::NoMemory(_)) => Err(NoMemory),
        Err(InsertFault::TooManySets(_)) => unreachable!(),
        Err(InsertFault::TooManyCells(_)) => unreachable!(),
    }
}

// A copy of a set.
fn copy_of_set(alloc: Global, set: &QuotaSet) -> Result<QuotaSet, NoMemory>
    ensures { IfOk result (λ s. s ≡ set.now) }
{
    let cells = set.cells().to_vec(alloc)?;
    Ok(QuotaSet::new(set.side(), set.floor(), set.ceiling(), cells))
}

// A copy of a family.
fn copy_of(alloc: Global, family: &Family) -> Result<Family, NoMemory>
    ensures { IfOk result (λ f. f ≡ family.now) }
{
    let mut copy = Family::new(alloc, family.agents(), family.columns());
    for index in 0..family.len() {
        let set = copy_of_set(alloc, family.get(index + 1).unwrap())?;
        add(&mut copy, set)?;
    }
    Ok(copy)
}

// Adds the sets of an agent's first places, by their number.
fn add_fronts(
    alloc: Global,
    problem: &Problem,
    x: &Scaled,
    agent: u32,
    family: &mut Family,
) -> Result<(), NoMemory>
    requires given { IsAssigned problem.now x.now }
    requires agent { agent < length problem.now.agents }
    requires agents { family.old.agents ≡ length problem.now.agents }
    requires columns { family.old.columns ≡ column_count problem.now }
    requires sets { length family.old.sets + length (list_at problem.now agent) ≤ 2000 }
    requires cells { cells_in family.old.sets + triangle (length (list_at problem.now agent))
        ≤ 1201000 }
    ensures { OnOk result (family.new
        ≡ record family.old { sets = family.old.sets ++ fronts_of problem.now x.now agent }) }
{
    for place in 0..problem.list(agent).len() {
        let set = front_set(alloc, problem, x, agent, place + 1)?;
        add(family, set)?;
    }
    Ok(())
}

// The guarded family, where it is not too large.
fn all_sets(alloc: Global, problem: &Problem, x: &Scaled) -> Result<Family, NoMemory>
    requires given { IsAssigned problem.now x.now }
    requires fits { FitsGuard problem.now x.now }
    ensures { IfOk result (λ f. f ≡ guarded_family problem.now x.now) }
{
    let mut family = copy_of(alloc, problem.family())?;
    for agent in 0..problem.agents().len() {
        add_fronts(alloc, problem, x, agent, &mut family)?;
    }
    Ok(family)
}

/// The guarded family of a random assignment of a problem: the problem's sets and then, by agent and then k, the cells
/// of each agent's first k places as a set of side 1, with its own units over the denominator, rounded down and up, as
/// floor and ceiling.
///
/// `OverGuard` comes exactly where that family would have more than 2,000 sets or more than 1,201,000 cells, and carries
/// both numbers; it is decided before any memory is taken. `NoMemory` may come at any other problem.
pub fn guarded(alloc: Global, problem: &Problem, x: &Scaled) -> Result<Family, GuardFault>
    requires agents { x.now.agents ≡ length problem.now.agents }
    requires columns { x.now.columns ≡ column_count problem.now }
    requires assignment { IsRandomAssignment problem.now x.now.denominator (units_of x.now) }
    ensures family { IfOk result (λ f. f ≡ guarded_family problem.now x.now) }
    ensures fits { OnOk result (FitsGuard problem.now x.now) }
    ensures refused { IfErr result (IsGuardFault problem.now x.now) }
    ensures lawful { IsProblem problem.now }
{
    let size = guard_size(problem);
    if !is_allowed(size) {
        return Err(GuardFault::OverGuard {
            sets: size.sets,
            cells: size.cells,
        });
    }
    Ok(all_sets(alloc, problem, x)?)
}
