//! `decompose`: given shares become a lottery.

ghost use Rattle.std.specs.Prelude.{◌≡◌, ◌≤◌, false, length};
ghost use Rattle.alloc_outcomes.specs.Limits.{file_limit};
ghost use Rattle.alloc_outcomes.specs.Steps.{Steps};
ghost use Rattle.alloc_steps.specs.Decompose.{DecomposeAnswers, SplitAnswers};
ghost use Rattle.definitions.specs.Lotteries.{ends_with_none};
ghost use Rattle.definitions.specs.Scaling.{IsScaled};

use crate::split::write_split;
use alloc_outcomes::Cause;
use alloc_readings::{check_quotas, family_from, scaled_from, shares_from, trees_from};
use device_core::Sink;
use quota_sets::{Family, Scaled};
use scaled_matrix::Shares;
use std::alloc::Global;

/// A lottery that splits the shares under a family, of which each piece meets every quota. The units
/// `x` are the shares over their least common denominator.
pub(crate) fn split_over<K: Sink>(
    alloc: Global,
    shares: &Shares,
    x: &Scaled,
    family: &Family,
    out: &mut K,
) -> Result<(), Cause>
    requires scaled { IsScaled shares.now x.now }
    requires agents { family.now.agents ≡ length shares.now.agents }
    requires columns { family.now.columns ≡ length shares.now.objects }
    requires plain { ends_with_none shares.now.objects ≡ false }
    ensures { Steps K.Sink (SplitAnswers shares.now x.now family.now) out.old out.new result }
{
    let trees = trees_from(alloc, family)?;
    check_quotas(x, family)?;
    write_split(alloc, shares, family, &trees, x, out)?;
    Ok(())
}

/// `decompose MATRIX QUOTAS`: a lottery that splits the shares, of which each piece meets every
/// quota.
pub fn step<K: Sink>(alloc: Global, matrix: &[u8], quotas: &[u8], out: &mut K) -> Result<(), Cause>
    requires { length quotas.now ≤ file_limit }
    ensures { Steps K.Sink (DecomposeAnswers matrix.now quotas.now) out.old out.new result }
{
    let shares = shares_from(alloc, matrix)?;
    let x = scaled_from(alloc, &shares)?;
    let family = family_from(alloc, &shares, quotas)?;
    split_over(alloc, &shares, &x, &family, out)
}
