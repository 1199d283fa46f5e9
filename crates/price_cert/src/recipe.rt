//! The numbers from which prices and worths are made.

ghost use Rattle.std.specs.Prelude.{◌≡◌, ◌≤◌, IfOk};
ghost use Rattle.definitions.specs.Certificate.{recipe_width};
ghost use Rattle.definitions.specs.Trees.{AreTreesOf};
ghost use Rattle.definitions.specs.Values.{IsProblem};
ghost use Rattle.eating.specs.Answers.{IsEaten};
ghost use Rattle.price_cert.specs.Recipes.{IsRecipeFor};

use crate::moments::{moments_before, numbers_of};
use crate::ranks::ranks_of;
use bihierarchy::Trees;
use eating::Eaten;
use quota_sets::{NoMemory, Problem};
use std::alloc::Global;

/// The width, the greatest rank, the moments before the end in order, and the ranks of the stated sets.
#[derive(Debug, Drop)]
pub(crate) struct Recipe {
    pub(crate) width: u64,
    pub(crate) top: u64,
    pub(crate) order: Vec<u128>,
    pub(crate) ranks: Vec<u64>,
}

/// The length of the longest list, plus 1.
fn width_of(problem: &Problem) -> u64
    ensures value { result ≡ recipe_width problem.now }
    ensures small { result ≤ 202 }
    ensures lawful { IsProblem problem.now }
{
    let mut longest: usize = 0;
    for agent in 0..problem.agents().len() {
        longest = longest.max(problem.list(agent).len());
    }
    longest as u64 + 1
}

/// The numbers for what is eaten in a problem.
pub(crate) fn recipe_of(
    alloc: Global,
    problem: &Problem,
    trees: &Trees,
    eaten: &Eaten,
) -> Result<Recipe, NoMemory>
    requires trees { AreTreesOf problem.now.family trees.now }
    requires eaten { IsEaten problem.now eaten.now }
    ensures { IfOk result (IsRecipeFor problem.now trees.now eaten.now) }
{
    let width = width_of(problem);
    let end = eaten.shares().denominator();
    let order = moments_before(alloc, eaten.moments(), eaten.caps(), end)?;
    let top = order.len() as u64 + 1;
    let numbers = numbers_of(alloc, &order, eaten.moments())?;
    let ranks = ranks_of(alloc, trees, &numbers, top)?;
    Ok(Recipe {
        width,
        top,
        order,
        ranks,
    })
}
