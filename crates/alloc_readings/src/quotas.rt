// Whether shares meet the quotas of a family.
ghost use Rattle.std.specs.Prelude.{◌≡◌};
ghost use Rattle.alloc_outcomes.specs.Causes.{infeasible_cause};
ghost use Rattle.alloc_outcomes.specs.Checks.{Checked};
ghost use Rattle.alloc_readings.specs.Quotas.{MeetsOrNot};

use alloc_outcomes::Cause;
use quota_sets::{Family, Scaled};

/// Whether the units meet every quota.
pub fn check_quotas(x: &Scaled, family: &Family) -> Result<(), Cause>
    requires agents { x.now.agents ≡ family.now.agents }
    requires columns { x.now.columns ≡ family.now.columns }
    ensures { Checked (λ _. tt) infeasible_cause (MeetsOrNot family.now x.now) result }
{
    x.meets(family)?;
    Ok(())
}
