//! Pieces for the guarded family.

ghost use Rattle.std.specs.Prelude.{◌≡◌, length, IfOk, IfErr};
ghost use Rattle.definitions.specs.Sets.{IsBihierarchy, IsHierarchy, units_of};
ghost use Rattle.definitions.specs.Values.{column_count};
ghost use Rattle.definitions.specs.Assignment.{IsRandomAssignment};
ghost use Rattle.definitions.specs.Trees.{AreTreesOf};
ghost use Rattle.peeling.specs.Peelers.{pieces_value};
ghost use Rattle.guard_sets.specs.Guard.{IsGuardFault, IsGuardedLottery, SumsAreNear};

use crate::family::guarded;
use crate::fault::GuardFault;
use bihierarchy::{Trees, TreesFault};
use peeling::{Peeler, all_pieces};
use quota_sets::{Family, NoMemory, Pieces, Problem, Scaled};
use std::alloc::Global;

// The trees of a family of which no two sets of one side cross.
fn trees_apart(alloc: Global, family: &Family) -> Result<Trees, NoMemory>
    requires { IsBihierarchy family.now }
    ensures { IfOk result (AreTreesOf family.now) }
{
    let _sets = family.len();
    match Trees::of(alloc, family) {
        Ok(trees) => Ok(trees),
        Err(TreesFault::NoMemory) => Err(NoMemory),
        Err(TreesFault::Crossing { .. }) => unreachable!(),
    }
}

/// Pieces that decompose a random assignment of a problem for its guarded family, where no two stated sets cross. For each
/// agent and any whole numbers that fall strictly along its list, the sums of number times count in any two pieces differ
/// by at most the first minus the last number.
///
/// `OverGuard` comes exactly where `guarded` answers it. `NoMemory` may come at any other problem.
pub fn guarded_pieces(alloc: Global, problem: &Problem, x: &Scaled) -> Result<Pieces, GuardFault>
    requires agents { x.now.agents ≡ length problem.now.agents }
    requires columns { x.now.columns ≡ column_count problem.now }
    requires assignment { IsRandomAssignment problem.now x.now.denominator (units_of x.now) }
    requires apart { IsHierarchy problem.now.family 2 }
    ensures pieces { IfOk result (λ ps. IsGuardedLottery problem.now x.now (pieces_value ps)) }
    ensures bound { IfOk result (λ ps. SumsAreNear problem.now (pieces_value ps)) }
    ensures refused { IfErr result (IsGuardFault problem.now x.now) }
{
    let family = guarded(alloc, problem, x)?;
    let trees = trees_apart(alloc, &family)?;
    let mut peeler = Peeler::new(alloc, &trees, &family, x)?;
    Ok(all_pieces(alloc, &mut peeler)?)
}
