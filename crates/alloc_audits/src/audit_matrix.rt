//! `audit-matrix`: whether a lottery splits given shares.

ghost use Rattle.std.specs.Prelude.{◌≡◌, ◌≤◌, length};
ghost use Rattle.alloc_audits.specs.AuditMatrix.{AuditMatrixAnswers, SplitsOrFails, matrix_fault};
ghost use Rattle.alloc_audits.specs.Verdicts.{audit_cause, result_at};
ghost use Rattle.alloc_input.specs.Matrices.{IsMatrix};
ghost use Rattle.alloc_outcomes.specs.Checks.{Checked};
ghost use Rattle.alloc_outcomes.specs.Limits.{file_limit};
ghost use Rattle.alloc_outcomes.specs.Steps.{Steps};
ghost use Rattle.definitions.specs.Scaling.{IsScaled};
ghost use Rattle.definitions.specs.Sets.{IsFamily, IsScaledMatrix};
ghost use Rattle.lottery_file.specs.Lotteries.{IsLawfulLottery, lottery_value};

use crate::names::check_names;
use crate::verdicts::{PASS, passed};
use alloc_outcomes::{Cause, write_text};
use alloc_readings::{
    check_quotas, family_from, lottery_from, scaled_from, shares_from, trees_from,
};
use cert_check::{Fault, check_matrix, check_pieces_in};
use device_core::Sink;
use lottery_file::Lottery;
use quota_sets::{Family, Scaled};
use scaled_matrix::Shares;
use std::alloc::Global;

// The first check that fails, where x are the shares in units.
fn first_fault(
    alloc: Global,
    shares: &Shares,
    x: &Scaled,
    family: &Family,
    lottery: &Lottery,
) -> Result<(), Fault>
    requires shares { IsMatrix shares.now }
    requires units { IsScaled shares.now x.now }
    requires matrix { IsScaledMatrix x.now }
    requires agents { x.now.agents ≡ family.now.agents }
    requires columns { x.now.columns ≡ family.now.columns }
    requires lawful { IsLawfulLottery (lottery_value lottery.now) }
    ensures first { result
        ≡ result_at (matrix_fault shares.now x.now family.now (lottery_value lottery.now)) }
    ensures family { IsFamily family.now }
{
    let _sets = family.len();
    let (agents, columns) = (&lottery.agents, &lottery.columns);
    check_names(shares.agents(), shares.objects(), agents, columns)?;
    passed(check_matrix(x, &lottery.shares))?;
    passed(check_pieces_in(alloc, family, &lottery.shares, &lottery.pieces))
}

// Whether the lottery splits the shares.
fn check_lottery(
    alloc: Global,
    shares: &Shares,
    x: &Scaled,
    family: &Family,
    lottery: &Lottery,
) -> Result<(), Cause>
    requires shares { IsMatrix shares.now }
    requires units { IsScaled shares.now x.now }
    requires matrix { IsScaledMatrix x.now }
    requires agents { x.now.agents ≡ family.now.agents }
    requires columns { x.now.columns ≡ family.now.columns }
    requires lawful { IsLawfulLottery (lottery_value lottery.now) }
    ensures { Checked (λ _. tt) audit_cause
        (SplitsOrFails shares.now x.now family.now (lottery_value lottery.now)) result }
{
    match first_fault(alloc, shares, x, family, lottery) {
        Ok(()) => Ok(()),
        Err(fault) => Err(Cause::AuditFailed(fault)),
    }
}

/// `audit-matrix MATRIX QUOTAS LOTTERY`: `pass` and a line feed where the lottery splits the shares.
pub fn step<K: Sink>(
    alloc: Global,
    matrix: &[u8],
    quotas: &[u8],
    bytes: &[u8],
    out: &mut K,
) -> Result<(), Cause>
    requires { length quotas.now ≤ file_limit }
    ensures { Steps K.Sink (AuditMatrixAnswers matrix.now quotas.now bytes.now)
        out.old out.new result }
{
    let shares = shares_from(alloc, matrix)?;
    let x = scaled_from(alloc, &shares)?;
    let family = family_from(alloc, &shares, quotas)?;
    trees_from(alloc, &family)?;
    check_quotas(&x, &family)?;
    let lottery = lottery_from(alloc, bytes)?;
    check_lottery(alloc, &shares, &x, &family, &lottery)?;
    write_text(PASS, out)
}
