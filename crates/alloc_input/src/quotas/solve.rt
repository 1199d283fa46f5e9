//! What quotas for `solve` state, over the objects that they declare.

ghost use Rattle.std.specs.Prelude.{◌≡◌, ◌≤◌, length};
ghost use Rattle.alloc_input.specs.Objects.{declared};
ghost use Rattle.alloc_input.specs.Problems.{StatesForSolve};

use crate::faults::InputRefusal;
use crate::mode::Mode;
use crate::quotas::closing::{close_family, column_count};
use crate::quotas::records::{demands_of, read_quota_records};
use quota_sets::{Family, Names};
use std::alloc::Global;
use table_text::Rows;

/// The sets and demands that quotas for `solve` state.
#[derive(Debug, Drop)]
pub(crate) struct SolveQuotas {
    pub family: Family,
    pub demands: Vec<u32>,
}

/// What the records of quotas for `solve` state, over the objects that they declare.
pub(crate) fn read_solve_quotas(
    alloc: Global,
    rows: &Rows,
    agents: &Names,
    objects: &Names,
) -> Result<SolveQuotas, InputRefusal>
    requires few { length agents.now ≤ 1000 }
    requires objects { objects.now ≡ declared rows.now }
    ensures { StatesForSolve agents.now objects.now rows.now result }
{
    let state = read_quota_records(alloc, rows, agents, objects, Mode::Solve)?;
    let columns = column_count(objects.len(), true);
    let family = close_family(
        alloc,
        state.sets.as_slice(),
        agents.len(),
        objects.len(),
        columns,
    )?;
    Ok(SolveQuotas {
        family,
        demands: demands_of(state),
    })
}
