// The guarded family of a problem and shares.
ghost use Rattle.std.specs.Prelude.{◌≡◌, length};
ghost use Rattle.alloc_outcomes.specs.Checks.{Checked};
ghost use Rattle.alloc_readings.specs.Guarded.{guard_cause, GuardsOrNot};
ghost use Rattle.definitions.specs.Assignment.{IsRandomAssignment};
ghost use Rattle.definitions.specs.Sets.{units_of};
ghost use Rattle.definitions.specs.Values.{column_count};

use alloc_outcomes::Cause;
use guard_sets::{GuardFault, guarded};
use quota_sets::{Family, Problem, Scaled};
use std::alloc::Global;

/// The guarded family of the problem and these shares.
pub fn guarded_from(alloc: Global, problem: &Problem, shares: &Scaled) -> Result<Family, Cause>
    requires agents { shares.now.agents ≡ length problem.now.agents }
    requires columns { shares.now.columns ≡ column_count problem.now }
    requires assignment { IsRandomAssignment problem.now shares.now.denominator
        (units_of shares.now) }
    ensures { Checked (λ f. f) guard_cause (GuardsOrNot problem.now shares.now) result }
{
    match guarded(alloc, problem, shares) {
        Ok(family) => {
            let _sets = family.len();
            Ok(family)
        }
        Err(GuardFault::OverGuard { sets, cells }) => Err(Cause::OverGuard { sets, cells }),
        Err(GuardFault::NoMemory) => Err(Cause::NoMemory),
    }
}
