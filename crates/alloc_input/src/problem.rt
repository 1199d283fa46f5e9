//! The reader of a problem: preferences, the first file, over the objects that quotas, the second file, declare.

ghost use Rattle.std.specs.Prelude.{IfErr, IfOk};
ghost use Rattle.definitions.specs.Values.{IsProblem};
ghost use Rattle.alloc_input.specs.Problems.{ProblemReads, ProblemRefusedFor, ReadsProblem};

use crate::faults::InputRefusal;
use crate::prefs::{Preferences, read_preferences};
use crate::quotas::declared::declared_objects;
use crate::quotas::solve::{SolveQuotas, read_solve_quotas};
use quota_sets::Problem;
use std::alloc::Global;
use table_text::{Rows, records};

/// Reads a problem from preferences, which are file 1, and quotas, which are file 2.
///
/// The objects are those that the quotas declare. `Fault` is the first unlawful record of the preferences or, where
/// they are lawful, of the quotas, with the first of its checks that fails; what is missing at the end of the
/// preferences has the number of their records plus 1. `NoMemory` can come at any texts.
pub fn read_problem(alloc: Global, prefs: &[u8], quotas: &[u8]) -> Result<Problem, InputRefusal>
    ensures value { IfOk result (ProblemReads prefs.now quotas.now) }
    ensures lawful { IfOk result IsProblem }
    ensures fault { IfErr result (ProblemRefusedFor prefs.now quotas.now) }
{
    let rows = records(alloc, prefs)?;
    let quota_rows = records(alloc, quotas)?;
    read_records(alloc, &rows, &quota_rows)
}

// Reads a problem from the records of both files.
fn read_records(alloc: Global, rows: &Rows, quota_rows: &Rows) -> Result<Problem, InputRefusal>
    ensures exact { ReadsProblem rows.now quota_rows.now result }
    ensures lawful { IfOk result IsProblem }
{
    let objects = declared_objects(alloc, quota_rows)?;
    let prefs = read_preferences(alloc, rows, &objects)?;
    let quotas = read_solve_quotas(alloc, quota_rows, &prefs.agents, &objects)?;
    let Preferences { agents, lists } = prefs;
    let SolveQuotas { family, demands } = quotas;
    let problem = Problem::with_demands(alloc, agents, objects, lists, demands, family)?;
    Ok(problem)
}
