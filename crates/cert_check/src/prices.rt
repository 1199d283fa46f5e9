//! Checks 7, 8, 9, 18, 10, 11 and 12, in this order: a matrix is a random assignment of a problem, and prices and worths certify it.

ghost use Rattle.std.specs.Prelude.{◌≡◌, ◌<◌, ◌+◌, ◌-◌, ◌↔◌, length, nat_eq};
ghost use Rattle.std.specs.Set.{is_member};
ghost use Rattle.definitions.specs.Sets.{IsScaledMatrix, cell_of, units_of};
ghost use Rattle.definitions.specs.Values.{IsProblem, column_count, list_at, is_capped, prices_value, worths_of};
ghost use Rattle.definitions.specs.Certificate.{HasShapeOf, worth_at};
ghost use Rattle.definitions.specs.Firsts.{first_in};
ghost use Rattle.cert_check.specs.PricePass.{IsCertified, IsUndominated, IsUndominatedOffLists, IsWorthMost};
ghost use Rattle.cert_check.specs.Verdicts.{verdict_of};
ghost use Rattle.cert_check.specs.PriceFaults.{IsMatrixOf, IsProblemMatrix, ArePriced, AreSmall, first_price_fault, row_look, off_list_look, ceiling_look, cap_look, falling_look, full_look, row_fault, off_list_fault, ceiling_fault, cap_fault, falling_fault, full_fault};

use crate::faults::Fault;
use crate::verdicts::Verdict;
use crate::{best, sums};
use quota_sets::{Cell, Prices, Problem, Scaled};

/// Whether a matrix is a random assignment of a problem, and prices and worths certify it. Where they pass, no random assignment
/// over any denominator is worth more, and none dominates it, even with units off the lists.
///
/// The shapes are the problem's: a row for each agent and a column for each object and `none`, a price for each
/// stated set, a list of worths for each agent and a worth for each place of its list. Prices are at most 2^40, and
/// worths are of size at most 2^40. It takes no memory.
pub fn check_prices(problem: &Problem, x: &Scaled, prices: &Prices) -> Verdict
    requires matrix { IsMatrixOf problem.now x.now }
    requires shape { HasShapeOf problem.now (prices_value prices.now) }
    requires small { AreSmall (prices_value prices.now) }
    ensures exact { result
        ≡ verdict_of (first_price_fault problem.now x.now (prices_value prices.now)) }
    ensures pass { (result ≡ Verdict.Pass)
        ↔ IsCertified problem.now x.now (prices_value prices.now) }
    ensures worth { result ≡ Verdict.Pass
        → IsWorthMost problem.now (prices_value prices.now) x.now.denominator (units_of x.now) }
    ensures undominated { result ≡ Verdict.Pass
        → IsUndominated problem.now x.now.denominator (units_of x.now) }
    ensures off_lists { result ≡ Verdict.Pass
        → IsUndominatedOffLists problem.now x.now.denominator (units_of x.now) }
    ensures lawful { IsProblem problem.now × IsScaledMatrix x.now }
{
    Verdict::of(first_fault(problem, x, prices))
}

// The first fault, if there is one.
fn first_fault(problem: &Problem, x: &Scaled, prices: &Prices) -> Option<Fault>
    requires matrix { IsMatrixOf problem.now x.now }
    requires shape { HasShapeOf problem.now (prices_value prices.now) }
    requires small { AreSmall (prices_value prices.now) }
    ensures value { result ≡ first_price_fault problem.now x.now (prices_value prices.now) }
    ensures problem { IsProblem problem.now }
    ensures matrix { IsScaledMatrix x.now }
{
    let _ = (problem.stated(), x.denominator());
    if let Some(fault) = row_sums(problem, x) {
        return Some(fault);
    }
    if let Some(fault) = off_lists(problem, x) {
        return Some(fault);
    }
    if let Some(fault) = ceilings(problem, x) {
        return Some(fault);
    }
    if let Some(fault) = caps(problem, x) {
        return Some(fault);
    }
    if let Some(fault) = falling(problem, prices) {
        return Some(fault);
    }
    if let Some(fault) = full(problem, x, prices) {
        return Some(fault);
    }
    best::best(problem, x, prices)
}

// Check 7 at an agent: its row adds up to its demand times the denominator.
fn row_at(problem: &Problem, x: &Scaled, agent: u32) -> Option<Fault>
    requires given { IsProblemMatrix problem.now x.now }
    requires agent { agent < length problem.now.agents }
    ensures { result ≡ row_look problem.now x.now agent }
{
    let sum = sums::row_units(x, agent);
    if sum == u128::from(problem.demand(agent)) * x.denominator() {
        None
    } else {
        Some(Fault::RowSum {
            agent: agent + 1,
            sum,
        })
    }
}

// Check 7.
fn row_sums(problem: &Problem, x: &Scaled) -> Option<Fault>
    requires { IsMatrixOf problem.now x.now }
    ensures { result ≡ row_fault problem.now x.now }
{
    for agent in 0..problem.agents().len() {
        if let Some(fault) = row_at(problem, x, agent) {
            return Some(fault);
        }
    }
    None
}

// Whether a column is on an agent's list.
fn is_on_list(problem: &Problem, agent: u32, object: u32) -> bool
    requires { agent < length problem.now.agents }
    ensures { result ≡ is_member nat_eq (list_at problem.now agent) object }
{
    problem.list(agent).contains(&object)
}

// Check 8 at a cell: there are no units off the agent's list.
fn off_list_at(problem: &Problem, x: &Scaled, agent: u32, object: u32) -> Option<Fault>
    requires given { IsProblemMatrix problem.now x.now }
    requires agent { agent < length problem.now.agents }
    requires object { object < column_count problem.now }
    ensures { result ≡ off_list_look problem.now x.now agent object }
{
    let units = x.at(Cell { agent, object });
    if !is_on_list(problem, agent, object) && units > 0 {
        Some(Fault::OffList {
            agent: agent + 1,
            column: object + 1,
            units,
        })
    } else {
        None
    }
}

// Check 8 in a row.
fn off_list_in(problem: &Problem, x: &Scaled, agent: u32) -> Option<Fault>
    requires given { IsProblemMatrix problem.now x.now }
    requires agent { agent < length problem.now.agents }
    ensures { result
        ≡ first_in (off_list_look problem.now x.now agent) 0 (column_count problem.now) }
{
    for object in 0..x.columns() {
        if let Some(fault) = off_list_at(problem, x, agent, object) {
            return Some(fault);
        }
    }
    None
}

// Check 8.
fn off_lists(problem: &Problem, x: &Scaled) -> Option<Fault>
    requires { IsMatrixOf problem.now x.now }
    ensures { result ≡ off_list_fault problem.now x.now }
{
    for agent in 0..problem.agents().len() {
        if let Some(fault) = off_list_in(problem, x, agent) {
            return Some(fault);
        }
    }
    None
}

// Check 9 at a stated set: its sum is at most its ceiling times the denominator.
fn ceiling_at(problem: &Problem, x: &Scaled, index: u32) -> Option<Fault>
    requires given { IsProblemMatrix problem.now x.now }
    requires index { index < problem.now.stated }
    ensures { result ≡ ceiling_look problem.now x.now index }
{
    let sum = sums::stated_units(problem, x, index);
    if sum > sums::stated_units_allowed(problem, x, index) {
        Some(Fault::OverCeiling {
            set: index + 1,
            sum,
        })
    } else {
        None
    }
}

// Check 9.
fn ceilings(problem: &Problem, x: &Scaled) -> Option<Fault>
    requires { IsMatrixOf problem.now x.now }
    ensures { result ≡ ceiling_fault problem.now x.now }
{
    for index in 0..problem.stated() {
        if let Some(fault) = ceiling_at(problem, x, index) {
            return Some(fault);
        }
    }
    None
}

// Whether a cell is capped.
fn is_capped_at(problem: &Problem, agent: u32, object: u32) -> bool
    requires { agent < length problem.now.agents }
    ensures { result ≡ is_capped problem.now (cell_of agent object) }
{
    problem.demand(agent) >= 2
        && is_on_list(problem, agent, object)
        && object < problem.objects().len()
}

// Check 18 at a cell: a capped cell has at most the denominator.
fn cap_at(problem: &Problem, x: &Scaled, agent: u32, object: u32) -> Option<Fault>
    requires given { IsProblemMatrix problem.now x.now }
    requires agent { agent < length problem.now.agents }
    requires object { object < column_count problem.now }
    ensures { result ≡ cap_look problem.now x.now agent object }
{
    let units = x.at(Cell { agent, object });
    if is_capped_at(problem, agent, object) && units > x.denominator() {
        Some(Fault::OverCap {
            agent: agent + 1,
            column: object + 1,
            units,
        })
    } else {
        None
    }
}

// Check 18 in a row.
fn cap_in(problem: &Problem, x: &Scaled, agent: u32) -> Option<Fault>
    requires given { IsProblemMatrix problem.now x.now }
    requires agent { agent < length problem.now.agents }
    ensures { result
        ≡ first_in (cap_look problem.now x.now agent) 0 (column_count problem.now) }
{
    for object in 0..x.columns() {
        if let Some(fault) = cap_at(problem, x, agent, object) {
            return Some(fault);
        }
    }
    None
}

// Check 18.
fn caps(problem: &Problem, x: &Scaled) -> Option<Fault>
    requires { IsMatrixOf problem.now x.now }
    ensures { result ≡ cap_fault problem.now x.now }
{
    for agent in 0..problem.agents().len() {
        if let Some(fault) = cap_in(problem, x, agent) {
            return Some(fault);
        }
    }
    None
}

// The worth at a place of an agent's list.
pub fn worth(prices: &Prices, agent: u32, place: u32) -> i64
    requires agent { agent < length (prices_value prices.now).worth }
    requires place { place < length (worths_of (prices_value prices.now) agent) }
    ensures { result ≡ worth_at (prices_value prices.now) agent place }
{
    prices.worth[agent as usize][place as usize]
}

// Check 10 at a place: its worth is above that of the next place.
fn falling_at(problem: &Problem, prices: &Prices, agent: u32, place: u32) -> Option<Fault>
    requires lawful { IsProblem problem.now }
    requires shape { HasShapeOf problem.now (prices_value prices.now) }
    requires agent { agent < length problem.now.agents }
    requires place { place + 1 < length (list_at problem.now agent) }
    ensures { result ≡ falling_look (prices_value prices.now) agent place }
{
    let own = worth(prices, agent, place);
    let next = worth(prices, agent, place + 1);
    if next < own {
        None
    } else {
        Some(Fault::WorthNotFalling {
            agent: agent + 1,
            place: place + 1,
            worth: own,
            next,
        })
    }
}

// Check 10 in a list.
fn falling_in(problem: &Problem, prices: &Prices, agent: u32) -> Option<Fault>
    requires lawful { IsProblem problem.now }
    requires shape { HasShapeOf problem.now (prices_value prices.now) }
    requires agent { agent < length problem.now.agents }
    ensures { result ≡ first_in (falling_look (prices_value prices.now) agent)
        0 (length (list_at problem.now agent) - 1) }
{
    for place in 0..problem.list(agent).len() as u32 - 1 {
        if let Some(fault) = falling_at(problem, prices, agent, place) {
            return Some(fault);
        }
    }
    None
}

// Check 10.
fn falling(problem: &Problem, prices: &Prices) -> Option<Fault>
    requires { HasShapeOf problem.now (prices_value prices.now) }
    ensures { result ≡ falling_fault problem.now (prices_value prices.now) }
{
    for agent in 0..problem.agents().len() {
        if let Some(fault) = falling_in(problem, prices, agent) {
            return Some(fault);
        }
    }
    None
}

// Check 11 at a stated set: with a price above 0 it has its ceiling times the denominator.
fn full_at(problem: &Problem, x: &Scaled, prices: &Prices, index: u32) -> Option<Fault>
    requires given { IsProblemMatrix problem.now x.now }
    requires shape { HasShapeOf problem.now (prices_value prices.now) }
    requires index { index < problem.now.stated }
    ensures { result ≡ full_look problem.now x.now (prices_value prices.now) index }
{
    let price = prices.price[index as usize];
    let sum = sums::stated_units(problem, x, index);
    if price > 0 && sum < sums::stated_units_allowed(problem, x, index) {
        Some(Fault::PriceNotFull {
            set: index + 1,
            price,
            sum,
        })
    } else {
        None
    }
}

// Check 11.
fn full(problem: &Problem, x: &Scaled, prices: &Prices) -> Option<Fault>
    requires matrix { IsMatrixOf problem.now x.now }
    requires shape { HasShapeOf problem.now (prices_value prices.now) }
    ensures { result ≡ full_fault problem.now x.now (prices_value prices.now) }
{
    for index in 0..problem.stated() {
        if let Some(fault) = full_at(problem, x, prices, index) {
            return Some(fault);
        }
    }
    None
}
