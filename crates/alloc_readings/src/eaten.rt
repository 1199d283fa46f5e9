// What is eaten in a problem.
ghost use Rattle.alloc_outcomes.specs.Causes.{too_fine_cause};
ghost use Rattle.alloc_outcomes.specs.Checks.{Checked};
ghost use Rattle.alloc_readings.specs.Eaten.{EatsOrTooFine};
ghost use Rattle.definitions.specs.Trees.{AreTreesOf};

use alloc_outcomes::Cause;
use bihierarchy::Trees;
use eating::{Eaten, eat};
use quota_sets::Problem;
use std::alloc::Global;

/// What is eaten in a problem.
pub fn eaten_from(alloc: Global, problem: &Problem, trees: &Trees) -> Result<Eaten, Cause>
    requires { AreTreesOf problem.now.family trees.now }
    ensures { Checked (λ eaten. eaten) too_fine_cause (EatsOrTooFine problem.now) result }
{
    Ok(eat(alloc, problem, trees)?)
}
