//! The call that makes a certificate, and the law on what it makes. How the numbers are found isn't known here.

ghost use Rattle.std.specs.Prelude.{IfOk};
ghost use Rattle.definitions.specs.Trees.{AreTreesOf};
ghost use Rattle.definitions.specs.Values.{prices_value};
ghost use Rattle.eating.specs.Answers.{IsEaten};
ghost use Rattle.price_cert.specs.Certified.{AreSmall, CertifiesEaten, IsRecipeForEaten, RecipeCertifies};
ghost use Rattle.price_cert.specs.Recipes.{IsRecipeFor};

use crate::ranks::prices_of;
use crate::recipe::{Recipe, recipe_of};
use crate::worths::all_worths;
use bihierarchy::Trees;
use eating::Eaten;
use quota_sets::{NoMemory, Prices, Problem};
use std::alloc::Global;

/// The prices and worths of the recipe certify the shares of the eating table.
pub fn recipe_certifies()
    ensures { RecipeCertifies }
{}

/// The prices and worths by these numbers.
fn prices_by(
    alloc: Global,
    problem: &Problem,
    trees: &Trees,
    eaten: &Eaten,
    recipe: &Recipe,
) -> Result<Prices, NoMemory>
    requires trees { AreTreesOf problem.now.family trees.now }
    requires eaten { IsEaten problem.now eaten.now }
    requires recipe { IsRecipeFor problem.now trees.now eaten.now recipe.now }
    ensures { IfOk result (λ y. IsRecipeForEaten problem.now eaten.now (prices_value y)) }
{
    let price = prices_of(alloc, trees, &recipe.ranks, recipe.top, recipe.width)?;
    let worth = all_worths(alloc, recipe, problem, trees, eaten)?;
    Ok(Prices { price, worth })
}

/// The prices and worths of the recipe for what is eaten in a problem: `price` by stated set, `worth` by agent and
/// place. The trees are those of the problem's family.
///
/// They certify what is eaten. Prices and worths are below 2^25, and worths are at least -201. `NoMemory` may come at
/// any problem.
pub fn certificate(
    alloc: Global,
    problem: &Problem,
    trees: &Trees,
    eaten: &Eaten,
) -> Result<Prices, NoMemory>
    requires trees { AreTreesOf problem.now.family trees.now }
    requires eaten { IsEaten problem.now eaten.now }
    ensures recipe { IfOk result (λ y. IsRecipeForEaten problem.now eaten.now (prices_value y)) }
    ensures certifies { IfOk result (λ y. CertifiesEaten problem.now eaten.now (prices_value y)) }
    ensures small { IfOk result (λ y. AreSmall (prices_value y)) }
{
    let recipe = recipe_of(alloc, problem, trees, eaten)?;
    let prices = prices_by(alloc, problem, trees, eaten, &recipe)?;
    Ok(prices)
}
