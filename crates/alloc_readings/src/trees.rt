// The two trees of a family.
ghost use Rattle.alloc_outcomes.specs.Causes.{trees_cause};
ghost use Rattle.alloc_outcomes.specs.Checks.{Checked};
ghost use Rattle.alloc_readings.specs.Trees.{CrossesOrTrees};

use alloc_outcomes::Cause;
use bihierarchy::Trees;
use quota_sets::Family;
use std::alloc::Global;

/// The trees of a family.
pub fn trees_from(alloc: Global, family: &Family) -> Result<Trees, Cause>
    ensures { Checked (λ t. t) trees_cause (CrossesOrTrees family.now) result }
{
    Ok(Trees::of(alloc, family)?)
}
