//! Which agents are alike.

ghost use Rattle.std.specs.Prelude.{◌≡◌, ◌<◌, ◌↔◌, length, IsTrue, All};
ghost use Rattle.definitions.specs.Values.{IsProblem, IsStatedSet, stated_sets};
ghost use Rattle.definitions.specs.Fairness.{IsAlike};
ghost use Rattle.fairness_core.specs.Alike.{HasCappedCell, HoldsAlike, columns_of};

use quota_sets::{Cell, Problem, QuotaSet};

// Whether an agent has a capped cell: one of an object of its list, where its demand is 2 or more.
fn has_capped_cell(problem: &Problem, agent: u32) -> bool
    requires { agent < length problem.now.agents }
    ensures { IsTrue result ↔ HasCappedCell problem.now agent }
{
    problem.demand(agent) > 1 && problem.list(agent).len() > 1
}

// Whether two lists of cells have the same columns in the same order.
fn are_same_columns(cells: &[Cell], others: &[Cell]) -> bool
    ensures { IsTrue result ↔ (columns_of cells.now ≡ columns_of others.now) }
{
    if cells.len() != others.len() {
        return false;
    }
    for place in 0..cells.len() {
        if cells[place].object != others[place].object {
            return false;
        }
    }
    true
}

// Whether a stated set, whose cells are all of the columns before `none`, holds the same columns of both agents.
fn holds_alike(set: &QuotaSet, none: u32, one: u32, other: u32) -> bool
    requires { IsStatedSet none set.now }
    ensures { IsTrue result ↔ HoldsAlike none one other set.now.cells }
{
    let _side = set.side();
    are_same_columns(set.cells_of(one), set.cells_of(other))
}

// Whether each stated set holds the same columns of both agents.
fn are_held_alike(problem: &Problem, one: u32, other: u32) -> bool
    ensures alike { IsTrue result ↔ All (λ s. HoldsAlike (length problem.now.objects) one other
        s.cells) (stated_sets problem.now) }
    ensures lawful { IsProblem problem.now }
{
    let none = problem.objects().len();
    for index in 0..problem.stated() {
        let set = problem.family().get(index + 1).unwrap();
        if !holds_alike(set, none, one, other) {
            return false;
        }
    }
    true
}

/// Whether two agents are alike: their demands are equal, and each set of the problem holds the one's cell of an object
/// exactly where it holds the other's. Agents count from 0. A capped cell is in a set that holds it alone, so an agent
/// with a capped cell is alike to no other. It takes no memory.
pub fn alike(problem: &Problem, one: u32, other: u32) -> bool
    requires one { one < length problem.now.agents }
    requires other { other < length problem.now.agents }
    ensures { IsTrue result ↔ IsAlike problem.now one other }
{
    if one == other {
        return true;
    }
    if problem.demand(one) != problem.demand(other) {
        return false;
    }
    if has_capped_cell(problem, one) {
        return false;
    }
    if has_capped_cell(problem, other) {
        return false;
    }
    are_held_alike(problem, one, other)
}
