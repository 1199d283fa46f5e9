//! `audit-guarded`: whether a lottery is sound for a problem, with pieces for the guarded family.

ghost use Rattle.alloc_audits.specs.AuditGuarded.{AuditGuardedAnswers, IsCertified, IsCertifiedOrFails, PassesPieces, PiecesAnswers};
ghost use Rattle.alloc_audits.specs.Verdicts.{audit_cause};
ghost use Rattle.alloc_outcomes.specs.Checks.{Checked};
ghost use Rattle.alloc_outcomes.specs.Steps.{Steps};
ghost use Rattle.cert_check.specs.PieceFaults.{IsMatrixFor};
ghost use Rattle.lottery_file.specs.Lotteries.{IsLawfulLottery, lottery_value};

use crate::audit::{certificate_fault, pieces_fault};
use crate::verdicts::PASS;
use alloc_outcomes::{Cause, write_text};
use alloc_readings::{guarded_from, lottery_from, problem_from, trees_from};
use device_core::Sink;
use lottery_file::Lottery;
use quota_sets::{Family, Problem};
use std::alloc::Global;

// Whether the lottery's shape is the problem's, and its prices certify its shares.
fn check_certificate(alloc: Global, problem: &Problem, lottery: &Lottery) -> Result<(), Cause>
    requires { IsLawfulLottery (lottery_value lottery.now) }
    ensures { Checked (λ _. tt) audit_cause
        (IsCertifiedOrFails problem.now (lottery_value lottery.now)) result }
{
    match certificate_fault(alloc, problem, lottery) {
        Ok(()) => Ok(()),
        Err(fault) => Err(Cause::AuditFailed(fault)),
    }
}

// Whether the lottery's pieces decompose its shares for this family.
fn check_pieces(alloc: Global, family: &Family, lottery: &Lottery) -> Result<(), Cause>
    requires matrix { IsMatrixFor family.now lottery.now.shares }
    requires lawful { IsLawfulLottery (lottery_value lottery.now) }
    ensures { Checked (λ _. tt) audit_cause
        (PassesPieces family.now (lottery_value lottery.now)) result }
{
    match pieces_fault(alloc, family, lottery) {
        Ok(()) => Ok(()),
        Err(fault) => Err(Cause::AuditFailed(fault)),
    }
}

// Writes `pass` where the pieces of a certified lottery decompose its shares for the guarded family.
fn check_guarded<K: Sink>(
    alloc: Global,
    problem: &Problem,
    lottery: &Lottery,
    out: &mut K,
) -> Result<(), Cause>
    requires { IsCertified problem.now (lottery_value lottery.now) }
    ensures { Steps K.Sink (PiecesAnswers problem.now (lottery_value lottery.now))
        out.old out.new result }
{
    let family = guarded_from(alloc, problem, &lottery.shares)?;
    check_pieces(alloc, &family, lottery)?;
    write_text(PASS, out)
}

/// `audit-guarded PREFS QUOTAS LOTTERY`: `pass` and a line feed where the lottery is sound for the
/// problem, with pieces for the guarded family of its shares.
pub fn step<K: Sink>(
    alloc: Global,
    prefs: &[u8],
    quotas: &[u8],
    bytes: &[u8],
    out: &mut K,
) -> Result<(), Cause>
    ensures { Steps K.Sink (AuditGuardedAnswers prefs.now quotas.now bytes.now)
        out.old out.new result }
{
    let problem = problem_from(alloc, prefs, quotas)?;
    trees_from(alloc, problem.family())?;
    let lottery = lottery_from(alloc, bytes)?;
    check_certificate(alloc, &problem, &lottery)?;
    check_guarded(alloc, &problem, &lottery, out)
}
