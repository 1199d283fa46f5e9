//! Worths along the lists.

ghost use Rattle.std.specs.Prelude.{◌≡◌, ℕ, ◌+◌, ◌<◌, ◌≤◌, ◌^◌, ◌+ℤ◌, ◌≤ℤ◌, IfOk, IfSome, Some, if◌then◌else◌, length, map, pos, All};
ghost use Rattle.std.specs.List.{range_with_len};
ghost use Rattle.definitions.specs.Certificate.{more, worth_here, worths_along};
ghost use Rattle.definitions.specs.Sets.{IsCellWithin};
ghost use Rattle.definitions.specs.Values.{column_count};
ghost use Rattle.price_cert.specs.Recipes.{IsFitting};
ghost use Rattle.price_cert.specs.Worths.{
  levels_ahead,
  place_in,
  place_value,
  places_in,
  worths_by,
  worths_in,
};

use crate::moments::number;
use crate::ranks::rank;
use crate::recipe::Recipe;
use bihierarchy::Trees;
use eating::Eaten;
use quota_sets::{Cell, Problem};
use std::alloc::{AllocError, Global};

/// A place of a list: whether it is eaten, and the worth that it has if it is.
#[derive(Clone, Copy, Debug)]
struct Place {
    eaten: bool,
    level: u64,
}

/// The place of a cell.
fn place_of(recipe: &Recipe, trees: &Trees, eaten: &Eaten, cell: Cell) -> Place
    requires fitting { IsFitting recipe.now trees.now eaten.now }
    requires cell { IsCellWithin trees.now.agents trees.now.columns cell }
    ensures value { place_value result ≡ place_in recipe.now trees.now eaten.now cell }
    ensures low { result.level ≤ 2 ^ 26 }
{
    let index = cell.agent as usize * eaten.shares().columns() as usize + cell.object as usize;
    let cap = number(&recipe.order, eaten.caps()[index]);
    let least = rank(&recipe.ranks, recipe.top, trees.deepest(2, cell)).min(cap);
    Place {
        eaten: eaten.shares().at(cell) > 0,
        level: recipe.width * (recipe.top - least),
    }
}

/// The places of an agent's list.
fn places_of(
    alloc: Global,
    recipe: &Recipe,
    problem: &Problem,
    trees: &Trees,
    eaten: &Eaten,
    agent: u32,
) -> Result<Vec<Place>, AllocError>
    requires fitting { IsFitting recipe.now trees.now eaten.now }
    requires agents { trees.now.agents ≡ length problem.now.agents }
    requires columns { trees.now.columns ≡ column_count problem.now }
    requires agent { agent < length problem.now.agents }
    ensures value { IfOk result (λ v. map place_value v.items
        ≡ places_in recipe.now problem.now trees.now eaten.now agent) }
    ensures low { IfOk result (λ v. All (λ q. q.level ≤ 2 ^ 26) v.items) }
{
    let mut places = Vec::new(alloc);
    for object in problem.list(agent) {
        places.push(place_of(
            recipe,
            trees,
            eaten,
            Cell {
                agent,
                object: *object,
            },
        ))?;
    }
    Ok(places)
}

/// The level ahead of a place: its own where it is eaten, or one more than that of the place after it.
fn level_ahead(place: Place, after: Option<u64>) -> Option<u64>
    requires low { place.level ≤ 2 ^ 26 }
    requires after { IfSome after (λ n. n ≤ 2 ^ 26 + 201) }
    ensures value { result ≡ if place.eaten then Some place.level else more after }
    ensures low { (k : ℕ) → IfSome after (λ n. n ≤ 2 ^ 26 + k)
        → IfSome result (λ n. n ≤ 2 ^ 26 + (k + 1)) }
{
    if place.eaten {
        Some(place.level)
    } else {
        after.map(|level| level + 1)
    }
}

/// For each place the level of the next eaten place, from there on, plus the distance to it.
fn levels_of(alloc: Global, places: &[Place]) -> Result<Vec<Option<u64>>, AllocError>
    requires low { All (λ q. q.level ≤ 2 ^ 26) places.now }
    requires short { length places.now ≤ 201 }
    ensures value { IfOk result (λ v. v.items ≡ levels_ahead (map place_value places.now)) }
    ensures low { IfOk result (λ v. All (λ o. IfSome o (λ n. n ≤ 2 ^ 26 + 201)) v.items) }
{
    let mut levels = Vec::new(alloc);
    let mut next: Option<u64> = None;
    let mut left = places.len();
    while left > 0 {
        left -= 1;
        next = level_ahead(places[left], next);
        levels.push(next)?;
    }
    levels.reverse();
    Ok(levels)
}

/// The worth of a place: the level ahead of it, or one less than the worth before it.
fn worth_of(before: i64, ahead: Option<u64>) -> i64
    requires before { pos 0 ≤ℤ (before +ℤ pos 201) }
    requires ahead { IfSome ahead (λ n. n ≤ 2 ^ 26 + 201) }
    ensures value { result ≡ worth_here before ahead }
    ensures low { (k : ℕ) → pos 0 ≤ℤ (before +ℤ pos k) → pos 0 ≤ℤ (result +ℤ pos (k + 1)) }
{
    match ahead {
        Some(level) => level as i64,
        None => before - 1,
    }
}

/// The worths of places with these levels ahead.
fn worths_from(alloc: Global, levels: &[Option<u64>]) -> Result<Vec<i64>, AllocError>
    requires low { All (λ o. IfSome o (λ n. n ≤ 2 ^ 26 + 201)) levels.now }
    requires short { length levels.now ≤ 201 }
    ensures { IfOk result (λ v. v.items ≡ worths_by (pos 0) levels.now) }
{
    let mut worths = Vec::new(alloc);
    let mut before: i64 = 0;
    for level in levels {
        before = worth_of(before, *level);
        worths.push(before)?;
    }
    Ok(worths)
}

/// The worths of these places.
fn worths_of(alloc: Global, places: &[Place]) -> Result<Vec<i64>, AllocError>
    requires low { All (λ q. q.level ≤ 2 ^ 26) places.now }
    requires short { length places.now ≤ 201 }
    ensures { IfOk result (λ v. v.items ≡ worths_along (pos 0) (map place_value places.now)) }
{
    let levels = levels_of(alloc, places)?;
    worths_from(alloc, &levels)
}

/// The worths of all lists.
pub(crate) fn all_worths(
    alloc: Global,
    recipe: &Recipe,
    problem: &Problem,
    trees: &Trees,
    eaten: &Eaten,
) -> Result<Vec<Vec<i64>>, AllocError>
    requires fitting { IsFitting recipe.now trees.now eaten.now }
    requires agents { trees.now.agents ≡ length problem.now.agents }
    requires columns { trees.now.columns ≡ column_count problem.now }
    ensures { IfOk result (λ v. map (λ w. w.items) v.items
        ≡ map (worths_in recipe.now problem.now trees.now eaten.now)
        (range_with_len 0 (length problem.now.lists))) }
{
    let mut worths = Vec::new(alloc);
    for agent in 0..problem.agents().len() {
        let places = places_of(alloc, recipe, problem, trees, eaten, agent)?;
        worths.push(worths_of(alloc, &places)?)?;
    }
    Ok(worths)
}
