//! Checks 1 to 4: names, the number of prices and lists are a problem's.

ghost use Rattle.std.specs.Prelude.{◌≡◌, ◌<◌, ◌≤◌, ◌+◌, ◌^◌, ◌↔◌, length, map, slice_get};
ghost use Rattle.std.specs.Str.{bytes_eq};
ghost use Rattle.definitions.specs.Values.{IsProblem};
ghost use Rattle.definitions.specs.Firsts.{first_in};
ghost use Rattle.cert_check.specs.Verdicts.{verdict_of};
ghost use Rattle.cert_check.specs.ShapeFaults.{AreShapeOf, agent_look, agents_fault, column_look, column_names, columns_fault, first_shape_fault, list_look, lists_fault, place_look, same_entry, sets_fault};

use crate::faults::Fault;
use crate::verdicts::Verdict;
use quota_sets::{Names, Prices, Problem};

/// Whether the names of agents and columns, the lists and the number of prices are a problem's, whose columns are its
/// objects and then `none`. There are fewer than 2^32 prices. It takes no memory.
pub fn check_shape(
    problem: &Problem,
    agents: &Names,
    columns: &Names,
    lists: &[Vec<u32>],
    prices: &Prices,
) -> Verdict
    requires { length prices.now.price.items < 2 ^ 32 }
    ensures exact { result ≡ verdict_of (first_shape_fault problem.now agents.now columns.now
        (map (λ list. list.items) lists.now) (length prices.now.price.items)) }
    ensures pass { (result ≡ Verdict.Pass) ↔ AreShapeOf problem.now agents.now columns.now
        (map (λ list. list.items) lists.now) (length prices.now.price.items) }
{
    Verdict::of(first_fault(problem, agents, columns, lists, prices))
}

// The first fault, if there is one.
fn first_fault(
    problem: &Problem,
    agents: &Names,
    columns: &Names,
    lists: &[Vec<u32>],
    prices: &Prices,
) -> Option<Fault>
    requires { length prices.now.price.items < 2 ^ 32 }
    ensures { result ≡ first_shape_fault problem.now agents.now columns.now
        (map (λ list. list.items) lists.now) (length prices.now.price.items) }
{
    if let Some(fault) = agents_differ(problem, agents) {
        return Some(fault);
    }
    if let Some(fault) = columns_differ(problem, columns) {
        return Some(fault);
    }
    if let Some(fault) = sets_differ(problem, prices) {
        return Some(fault);
    }
    lists_differ(problem, lists)
}

/// Whether two lists of names have the same at a place, or both none.
pub fn is_same_name(due: &Names, found: &Names, place: u32) -> bool
    ensures { result ≡ same_entry bytes_eq (slice_get due.now place) (slice_get found.now place) }
{
    match due.at(place) {
        Some(name) => match found.at(place) {
            Some(other) => name == other,
            None => false,
        },
        None => found.at(place).is_none(),
    }
}

// Check 1 at a place: the agents have one name there.
fn agent_at(problem: &Problem, agents: &Names, place: u32) -> Option<Fault>
    requires { place ≤ 1000 }
    ensures { result ≡ agent_look problem.now agents.now place }
{
    if is_same_name(problem.agents(), agents, place) {
        None
    } else {
        Some(Fault::AgentsDiffer { place: place + 1 })
    }
}

// Check 1.
fn agents_differ(problem: &Problem, agents: &Names) -> Option<Fault>
    ensures { result ≡ agents_fault problem.now agents.now }
{
    for place in 0..problem.agents().len() + 1 {
        if let Some(fault) = agent_at(problem, agents, place) {
            return Some(fault);
        }
    }
    None
}

// Whether a list of names has at a place the name of a problem's column, or none where that is past the last.
fn is_column(problem: &Problem, columns: &Names, place: u32) -> bool
    ensures { result ≡ same_entry bytes_eq
        (slice_get (column_names problem.now) place) (slice_get columns.now place) }
{
    let objects = problem.objects();
    if place < objects.len() {
        return is_same_name(objects, columns, place);
    }
    match columns.at(place) {
        Some(name) => place == objects.len() && name == "none",
        None => place > objects.len(),
    }
}

// Check 2 at a place: the columns have one name there.
fn column_at(problem: &Problem, columns: &Names, place: u32) -> Option<Fault>
    requires { place ≤ 1000 }
    ensures { result ≡ column_look problem.now columns.now place }
{
    if is_column(problem, columns, place) {
        None
    } else {
        Some(Fault::ColumnsDiffer { place: place + 1 })
    }
}

// Check 2.
fn columns_differ(problem: &Problem, columns: &Names) -> Option<Fault>
    ensures { result ≡ columns_fault problem.now columns.now }
{
    for place in 0..problem.objects().len() + 2 {
        if let Some(fault) = column_at(problem, columns, place) {
            return Some(fault);
        }
    }
    None
}

// Check 3: there is a price for each stated set.
fn sets_differ(problem: &Problem, prices: &Prices) -> Option<Fault>
    requires { length prices.now.price.items < 2 ^ 32 }
    ensures { result ≡ sets_fault problem.now (length prices.now.price.items) }
{
    let due = problem.stated();
    let found = prices.price.len() as u32;
    if due == found {
        None
    } else {
        Some(Fault::SetsDiffer { due, found })
    }
}

// Check 4 at a place of two lists: they have one column there, or both none.
fn place_at(agent: u32, due: &[u32], found: &[u32], place: usize) -> Option<Fault>
    requires agent { agent ≤ 1000 }
    requires place { place ≤ 201 }
    ensures { result ≡ place_look agent due.now found.now place }
{
    let same = match due.get(place) {
        Some(column) => match found.get(place) {
            Some(other) => *column == *other,
            None => false,
        },
        None => found.get(place).is_none(),
    };
    if same {
        None
    } else {
        Some(Fault::ListDiffers {
            agent: agent + 1,
            place: place as u32 + 1,
        })
    }
}

// Check 4 for two lists.
fn places_differ(agent: u32, due: &[u32], found: &[u32]) -> Option<Fault>
    requires agent { agent ≤ 1000 }
    requires few { length due.now ≤ 201 }
    ensures { result ≡ first_in (place_look agent due.now found.now) 0 (length due.now + 1) }
{
    for place in 0..due.len() + 1 {
        if let Some(fault) = place_at(agent, due, found, place) {
            return Some(fault);
        }
    }
    None
}

// Check 4 for an agent.
fn list_differs(problem: &Problem, lists: &[Vec<u32>], agent: u32) -> Option<Fault>
    requires lawful { IsProblem problem.now }
    requires agent { agent ≤ 1000 }
    ensures { result ≡ list_look problem.now (map (λ list. list.items) lists.now) agent }
{
    let missing = Fault::ListDiffers {
        agent: agent + 1,
        place: 1,
    };
    if agent < problem.agents().len() {
        match lists.get(agent as usize) {
            Some(found) => places_differ(agent, problem.list(agent), found),
            None => Some(missing),
        }
    } else {
        match lists.get(agent as usize) {
            Some(_) => Some(missing),
            None => None,
        }
    }
}

// Check 4.
fn lists_differ(problem: &Problem, lists: &[Vec<u32>]) -> Option<Fault>
    ensures { result ≡ lists_fault problem.now (map (λ list. list.items) lists.now) }
{
    for agent in 0..problem.agents().len() + 1 {
        if let Some(fault) = list_differs(problem, lists, agent) {
            return Some(fault);
        }
    }
    None
}
