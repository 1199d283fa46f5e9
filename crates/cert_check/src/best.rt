//! Check 12: at each place with units the worth minus the price of the cell is the greatest of the list.

ghost use Rattle.std.specs.Prelude.{◌≡◌, ℕ, ◌<◌, ◌+◌, ◌*◌, ◌^◌, ◌==◌, length, replicate, slice_index, All, count_by};
ghost use Rattle.definitions.specs.Sets.{units_of};
ghost use Rattle.definitions.specs.Values.{IsProblem, list_at, prices_value};
ghost use Rattle.definitions.specs.Certificate.{HasShapeOf, is_left_out, place_cell};
ghost use Rattle.definitions.specs.Firsts.{first_in};
ghost use Rattle.cert_check.specs.PriceFaults.{ArePriced, AreSmall, IsMatrixOf, IsPriceRow, IsProblemMatrix, gain_at, better_look, best_look, best_fault};

use crate::faults::Fault;
use crate::{prices, sums};
use quota_sets::{Cell, Prices, Problem, Scaled};

// The most columns that a problem has.
const COLUMNS: usize = 201;

// Adds a price at the columns of these cells.
fn add_price(cells: &[Cell], price: u64, row: &mut [u64])
    requires columns { All (λ c. c.object < length row.old) cells.now }
    requires room { (a : ℕ) → a < length row.old
        → slice_index row.old a + price * length cells.now < 2 ^ 64 }
    ensures { (a : ℕ) → a < length row.old → slice_index row.new a
        ≡ slice_index row.old a + price * count_by (λ c. c.object == a) cells.now }
{
    for i in 0..cells.len() {
        let column = cells[i].object as usize;
        row[column] += price;
    }
}

// Adds up the prices of the cells in an agent's row, by column.
fn prices_of_row(problem: &Problem, prices: &Prices, agent: u32, row: &mut [u64])
    requires priced { ArePriced problem.now (prices_value prices.now) }
    requires row { row.old ≡ replicate 201 0 }
    ensures { IsPriceRow problem.now (prices_value prices.now) agent row.new }
{
    for index in 0..problem.stated() {
        let cells = sums::stated(problem, index).cells_of(agent);
        add_price(cells, prices.price[index as usize], row);
    }
}

// The worth at a place of an agent's list, minus the price of the cell.
fn gain(problem: &Problem, prices: &Prices, agent: u32, row: &[u64], place: u32) -> i64
    requires priced { ArePriced problem.now (prices_value prices.now) }
    requires agent { agent < length problem.now.agents }
    requires row { IsPriceRow problem.now (prices_value prices.now) agent row.now }
    requires place { place < length (list_at problem.now agent) }
    ensures { result ≡ gain_at problem.now (prices_value prices.now) agent place }
{
    let column = problem.list(agent)[place as usize];
    prices::worth(prices, agent, place) - row[column as usize] as i64
}

// Whether the cell at a place of an agent's list is capped and has all it may have.
fn is_full_cap(problem: &Problem, x: &Scaled, agent: u32, place: u32) -> bool
    requires given { IsProblemMatrix problem.now x.now }
    requires agent { agent < length problem.now.agents }
    requires place { place < length (list_at problem.now agent) }
    ensures { result ≡ is_left_out problem.now x.now.denominator (units_of x.now)
        (place_cell problem.now agent place) }
{
    let object = problem.list(agent)[place as usize];
    problem.demand(agent) >= 2
        && object < problem.objects().len()
        && x.at(Cell { agent, object }) == x.denominator()
}

// Check 12 at a place, against another place.
fn better_than(
    problem: &Problem,
    x: &Scaled,
    prices: &Prices,
    agent: u32,
    row: &[u64],
    place: u32,
    other: u32,
) -> Option<Fault>
    requires given { IsProblemMatrix problem.now x.now }
    requires priced { ArePriced problem.now (prices_value prices.now) }
    requires agent { agent < length problem.now.agents }
    requires row { IsPriceRow problem.now (prices_value prices.now) agent row.now }
    requires place { place < length (list_at problem.now agent) }
    requires other { other < length (list_at problem.now agent) }
    ensures { result ≡ better_look problem.now x.now (prices_value prices.now) agent place other }
{
    let own = gain(problem, prices, agent, row, place);
    let better = gain(problem, prices, agent, row, other);
    if !is_full_cap(problem, x, agent, other) && own < better {
        Some(Fault::NotBest {
            agent: agent + 1,
            place: place + 1,
            gain: own,
            other: other + 1,
            better,
        })
    } else {
        None
    }
}

// The first place of an agent's list that is better than a place.
fn better_at(
    problem: &Problem,
    x: &Scaled,
    prices: &Prices,
    agent: u32,
    row: &[u64],
    place: u32,
) -> Option<Fault>
    requires given { IsProblemMatrix problem.now x.now }
    requires priced { ArePriced problem.now (prices_value prices.now) }
    requires agent { agent < length problem.now.agents }
    requires row { IsPriceRow problem.now (prices_value prices.now) agent row.now }
    requires place { place < length (list_at problem.now agent) }
    ensures { result ≡ first_in
        (better_look problem.now x.now (prices_value prices.now) agent place)
        0 (length (list_at problem.now agent)) }
{
    for other in 0..problem.list(agent).len() as u32 {
        if let Some(fault) = better_than(problem, x, prices, agent, row, place, other) {
            return Some(fault);
        }
    }
    None
}

// Check 12 at a place.
fn best_at(
    problem: &Problem,
    x: &Scaled,
    prices: &Prices,
    agent: u32,
    row: &[u64],
    place: u32,
) -> Option<Fault>
    requires given { IsProblemMatrix problem.now x.now }
    requires priced { ArePriced problem.now (prices_value prices.now) }
    requires agent { agent < length problem.now.agents }
    requires row { IsPriceRow problem.now (prices_value prices.now) agent row.now }
    requires place { place < length (list_at problem.now agent) }
    ensures { result ≡ best_look problem.now x.now (prices_value prices.now) agent place }
{
    let object = problem.list(agent)[place as usize];
    if x.at(Cell { agent, object }) > 0 {
        better_at(problem, x, prices, agent, row, place)
    } else {
        None
    }
}

// Check 12 in a list.
fn best_in(problem: &Problem, x: &Scaled, prices: &Prices, agent: u32, row: &[u64]) -> Option<Fault>
    requires given { IsProblemMatrix problem.now x.now }
    requires priced { ArePriced problem.now (prices_value prices.now) }
    requires agent { agent < length problem.now.agents }
    requires row { IsPriceRow problem.now (prices_value prices.now) agent row.now }
    ensures { result ≡ first_in (best_look problem.now x.now (prices_value prices.now) agent)
        0 (length (list_at problem.now agent)) }
{
    for place in 0..problem.list(agent).len() as u32 {
        if let Some(fault) = best_at(problem, x, prices, agent, row, place) {
            return Some(fault);
        }
    }
    None
}

// Check 12 for an agent.
fn best_of(problem: &Problem, x: &Scaled, prices: &Prices, agent: u32) -> Option<Fault>
    requires given { IsProblemMatrix problem.now x.now }
    requires priced { ArePriced problem.now (prices_value prices.now) }
    requires agent { agent < length problem.now.agents }
    ensures { result ≡ first_in (best_look problem.now x.now (prices_value prices.now) agent)
        0 (length (list_at problem.now agent)) }
{
    let mut row = [0; COLUMNS];
    prices_of_row(problem, prices, agent, &mut row);
    best_in(problem, x, prices, agent, &row)
}

// Check 12.
pub fn best(problem: &Problem, x: &Scaled, prices: &Prices) -> Option<Fault>
    requires matrix { IsMatrixOf problem.now x.now }
    requires shape { HasShapeOf problem.now (prices_value prices.now) }
    requires small { AreSmall (prices_value prices.now) }
    ensures { result ≡ best_fault problem.now x.now (prices_value prices.now) }
{
    for agent in 0..problem.agents().len() {
        if let Some(fault) = best_of(problem, x, prices, agent) {
            return Some(fault);
        }
    }
    None
}
