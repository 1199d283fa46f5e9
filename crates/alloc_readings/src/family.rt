// A family from quotas for given shares.
ghost use Rattle.std.specs.Prelude.{◌≤◌, length};
ghost use Rattle.alloc_input.specs.Quotas.{IsReadFor};
ghost use Rattle.alloc_outcomes.specs.Causes.{input_cause};
ghost use Rattle.alloc_outcomes.specs.Checks.{Checked};
ghost use Rattle.alloc_outcomes.specs.Limits.{file_limit};
ghost use Rattle.alloc_readings.specs.Family.{QuotasTextReads};

use alloc_input::{Mode, read_quotas};
use alloc_outcomes::Cause;
use quota_sets::Family;
use scaled_matrix::Shares;
use std::alloc::Global;

/// The family that a file of quotas reads as, over the names of the shares.
pub fn family_from(alloc: Global, shares: &Shares, quotas: &[u8]) -> Result<Family, Cause>
    requires size { length quotas.now ≤ file_limit }
    requires suits { IsReadFor Mode.Decompose quotas.now shares.now.agents shares.now.objects }
    ensures { Checked (λ f. f) input_cause (QuotasTextReads shares.now quotas.now) result }
{
    let family = read_quotas(
        alloc,
        quotas,
        shares.agents(),
        shares.objects(),
        Mode::Decompose,
    )?;
    Ok(family)
}
