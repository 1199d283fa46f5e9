//! `audit`: whether a lottery is sound for a problem.

ghost use Rattle.std.specs.Prelude.{◌≡◌};
ghost use Rattle.alloc_audits.specs.Audit.{AuditAnswers, IsSoundOrFails, audit_fault, certified_fault, prices_of};
ghost use Rattle.alloc_audits.specs.Verdicts.{PassesOrFails, audit_cause, result_at};
ghost use Rattle.alloc_outcomes.specs.Checks.{Checked};
ghost use Rattle.alloc_outcomes.specs.Steps.{Steps};
ghost use Rattle.cert_check.specs.PieceFaults.{IsMatrixFor, first_piece_fault};
ghost use Rattle.definitions.specs.Values.{IsProblem, prices_value};
ghost use Rattle.lottery_file.specs.Lotteries.{IsLawfulLottery, lottery_value};

use crate::verdicts::{PASS, passed};
use alloc_outcomes::{Cause, write_text};
use alloc_readings::{lottery_from, problem_from, trees_from};
use cert_check::{Fault, check_pieces_in, check_prices, check_shape};
use device_core::Sink;
use lottery_file::Lottery;
use quota_sets::{Family, Prices, Problem};
use std::alloc::Global;

// The first check of shape or of prices that fails. The prices are the lottery's, and empty where it
// has none.
fn first_fault(problem: &Problem, lottery: &Lottery, prices: &Prices) -> Result<(), Fault>
    requires prices { prices_value prices.now ≡ prices_of (lottery_value lottery.now) }
    requires lawful { IsLawfulLottery (lottery_value lottery.now) }
    ensures first { result ≡ result_at (certified_fault problem.now (lottery_value lottery.now)) }
    ensures problem { IsProblem problem.now }
{
    let _stated = problem.stated();
    let (agents, columns) = (&lottery.agents, &lottery.columns);
    passed(check_shape(problem, agents, columns, &lottery.lists, prices))?;
    passed(check_prices(problem, &lottery.shares, prices))
}

/// The same. A lottery without prices is checked with none, and fails check 1 or 2, since its last
/// column isn't `none`.
pub(crate) fn certificate_fault(
    alloc: Global,
    problem: &Problem,
    lottery: &Lottery,
) -> Result<(), Fault>
    requires { IsLawfulLottery (lottery_value lottery.now) }
    ensures first { result ≡ result_at (certified_fault problem.now (lottery_value lottery.now)) }
    ensures problem { IsProblem problem.now }
{
    match &lottery.prices {
        Some(prices) => first_fault(problem, lottery, prices),
        None => {
            let none = Prices {
                price: Vec::new(alloc),
                worth: Vec::new(alloc),
            };
            first_fault(problem, lottery, &none)
        }
    }
}

/// The first check of pieces over a family that fails.
pub(crate) fn pieces_fault(alloc: Global, family: &Family, lottery: &Lottery) -> Result<(), Fault>
    requires matrix { IsMatrixFor family.now lottery.now.shares }
    requires lawful { IsLawfulLottery (lottery_value lottery.now) }
    ensures { PassesOrFails (first_piece_fault family.now lottery.now.shares
        (lottery_value lottery.now).pieces) result }
{
    passed(check_pieces_in(alloc, family, &lottery.shares, &lottery.pieces))
}

// The first check that fails.
fn audit(alloc: Global, problem: &Problem, lottery: &Lottery) -> Result<(), Fault>
    requires { IsLawfulLottery (lottery_value lottery.now) }
    ensures first { result ≡ result_at (audit_fault problem.now (lottery_value lottery.now)) }
    ensures problem { IsProblem problem.now }
{
    certificate_fault(alloc, problem, lottery)?;
    pieces_fault(alloc, problem.family(), lottery)
}

/// Whether the lottery is sound for the problem.
pub(crate) fn check_lottery(
    alloc: Global,
    problem: &Problem,
    lottery: &Lottery,
) -> Result<(), Cause>
    requires { IsLawfulLottery (lottery_value lottery.now) }
    ensures { Checked (λ _. tt) audit_cause
        (IsSoundOrFails problem.now (lottery_value lottery.now)) result }
{
    match audit(alloc, problem, lottery) {
        Ok(()) => Ok(()),
        Err(fault) => Err(Cause::AuditFailed(fault)),
    }
}

/// `audit PREFS QUOTAS LOTTERY`: `pass` and a line feed where the lottery is sound for the problem.
pub fn step<K: Sink>(
    alloc: Global,
    prefs: &[u8],
    quotas: &[u8],
    bytes: &[u8],
    out: &mut K,
) -> Result<(), Cause>
    ensures { Steps K.Sink (AuditAnswers prefs.now quotas.now bytes.now) out.old out.new result }
{
    let problem = problem_from(alloc, prefs, quotas)?;
    trees_from(alloc, problem.family())?;
    let lottery = lottery_from(alloc, bytes)?;
    check_lottery(alloc, &problem, &lottery)?;
    write_text(PASS, out)
}
