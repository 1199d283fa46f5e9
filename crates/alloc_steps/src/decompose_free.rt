//! `decompose-free`: given shares become a lottery, whatever sides the quotas state.

ghost use Rattle.std.specs.Prelude.{◌≤◌, length};
ghost use Rattle.alloc_outcomes.specs.Causes.{no_sides_cause};
ghost use Rattle.alloc_outcomes.specs.Checks.{Checked};
ghost use Rattle.alloc_outcomes.specs.Limits.{file_limit};
ghost use Rattle.alloc_outcomes.specs.Steps.{Steps};
ghost use Rattle.alloc_steps.specs.DecomposeFree.{DecomposeFreeAnswers, FreesOrNot};

use crate::decompose::split_over;
use alloc_outcomes::Cause;
use alloc_readings::{family_from, scaled_from, shares_from};
use device_core::Sink;
use quota_sets::Family;
use side_finder::{Sides, apply_sides, find_sides};
use std::alloc::Global;

// The family with sides that keep its sets apart, unless it has an odd ring.
fn freed_from(alloc: Global, family: &Family) -> Result<Family, Cause>
    ensures { Checked (λ free. free) no_sides_cause (FreesOrNot family.now) result }
{
    match find_sides(alloc, family)? {
        Sides::Split(sides) => Ok(apply_sides(alloc, family, &sides)?),
        Sides::Ring(_) => Err(Cause::NoSides),
    }
}

/// `decompose-free MATRIX QUOTAS`: a lottery that splits the shares, of which each piece meets every
/// quota, wherever there are sides for the sets at all.
pub fn step<K: Sink>(alloc: Global, matrix: &[u8], quotas: &[u8], out: &mut K) -> Result<(), Cause>
    requires { length quotas.now ≤ file_limit }
    ensures { Steps K.Sink (DecomposeFreeAnswers matrix.now quotas.now) out.old out.new result }
{
    let shares = shares_from(alloc, matrix)?;
    let x = scaled_from(alloc, &shares)?;
    let family = family_from(alloc, &shares, quotas)?;
    let free = freed_from(alloc, &family)?;
    split_over(alloc, &shares, &x, &free, out)
}
