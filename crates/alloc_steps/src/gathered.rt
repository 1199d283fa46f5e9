//! A problem's lottery in hand, with a list of its pieces.

ghost use Rattle.std.specs.Prelude.{◌≡◌, ℕ, false, List, IfOk};
ghost use Rattle.definitions.specs.Certificate.{Certifies, IsRecipeOf};
ghost use Rattle.definitions.specs.Lotteries.{Solves};
ghost use Rattle.definitions.specs.Sets.{units_of};
ghost use Rattle.definitions.specs.Texts.{has_name, null_name};
ghost use Rattle.definitions.specs.Trees.{AreTreesOf};
ghost use Rattle.definitions.specs.Values.{prices_value};
ghost use Rattle.eating.specs.Answers.{IsEaten, IsEatenBy};
ghost use Rattle.lottery_file.specs.Lotteries.{lottery_value};

use crate::copies::{columns_of, lists_of, names_of, shares_of};
use bihierarchy::Trees;
use eating::Eaten;
use lottery_file::Lottery;
use peeling::{Peeler, all_pieces};
use quota_sets::{NoMemory, Prices, Problem};
use std::alloc::Global;

/// A lottery that solves a problem: its shares are what is eaten, its prices are those of the
/// recipe and certify them, and its pieces round the shares at every cell and set. `NoMemory` may
/// come at any problem.
pub(crate) fn gather(
    alloc: Global,
    problem: &Problem,
    trees: &Trees,
    eaten: &Eaten,
    prices: Prices,
) -> Result<Lottery, NoMemory>
    requires trees { AreTreesOf problem.now.family trees.now }
    requires eaten { IsEaten problem.now eaten.now }
    requires recipe { (e : List ℕ) → IsEatenBy problem.now e eaten.now
        → IsRecipeOf problem.now eaten.now.shares.denominator e (prices_value prices) }
    requires certifies { Certifies problem.now eaten.now.shares.denominator
        (units_of eaten.now.shares) (prices_value prices) }
    requires plain { has_name problem.now.objects null_name ≡ false }
    ensures { IfOk result (λ l. Solves problem.now (lottery_value l)) }
{
    let mut peeler = Peeler::new(alloc, trees, problem.family(), eaten.shares())?;
    let pieces = all_pieces(alloc, &mut peeler)?;
    let agents = names_of(alloc, problem.agents())?;
    let columns = columns_of(alloc, problem.objects())?;
    let shares = shares_of(alloc, eaten.shares())?;
    let lists = lists_of(alloc, problem)?;
    Ok(Lottery {
        agents,
        columns,
        shares,
        lists,
        prices: Some(prices),
        pieces,
    })
}
