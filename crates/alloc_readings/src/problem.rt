// A problem from preferences and quotas.
ghost use Rattle.alloc_outcomes.specs.Causes.{input_cause};
ghost use Rattle.alloc_outcomes.specs.Checks.{Checked};
ghost use Rattle.alloc_readings.specs.Problem.{ProblemTextReads};

use alloc_input::read_problem;
use alloc_outcomes::Cause;
use quota_sets::Problem;
use std::alloc::Global;

/// The problem that two files read as.
pub fn problem_from(alloc: Global, prefs: &[u8], quotas: &[u8]) -> Result<Problem, Cause>
    ensures { Checked (λ p. p) input_cause (ProblemTextReads prefs.now quotas.now) result }
{
    Ok(read_problem(alloc, prefs, quotas)?)
}
