//! The reader of quotas, the second file: sets over the cells of a matrix, and demands. It knows agents and objects by
//! their names alone.

ghost use Rattle.std.specs.Prelude.{◌≡◌, ◌≤◌, ◌+◌, IfErr, IfOk, length, true};
ghost use Rattle.table_text.specs.Limits.{file_limit};
ghost use Rattle.alloc_input.specs.Stated.{is_solve, setting_of};
ghost use Rattle.alloc_input.specs.Quotas.{IsReadFor, QuotasRefusedFor, TextReadsAsDemands, TextReadsAsFamily};

mod agents;
mod closing;
pub(crate) mod declared;
mod demands;
mod fields;
mod labels;
mod marks;
mod numbers;
mod objects;
mod open_sets;
mod records;
mod sets;
pub(crate) mod solve;
mod state;
mod words;

use crate::faults::InputRefusal;
use crate::mode::Mode;
use crate::quotas::closing::{close_family, column_count};
use crate::quotas::records::{demands_of, read_quota_records};
use quota_sets::{Family, Names};
use std::alloc::Global;
use table_text::records;

/// Reads the sets that quotas state, the second file, over agents and objects without `none`.
///
/// For `solve` the objects are those that the text declares, and the family has one more column, that of `none`. For
/// `decompose` there are at most 200. `Fault` is the first unlawful record of the text with the first of its checks
/// that fails. `NoMemory` can come at any text.
pub fn read_quotas(
    alloc: Global,
    bytes: &[u8],
    agents: &Names,
    objects: &Names,
    mode: Mode,
) -> Result<Family, InputRefusal>
    requires size { length bytes.now ≤ file_limit }
    requires suits { IsReadFor mode bytes.now agents.now objects.now }
    ensures value { IfOk result (TextReadsAsFamily (setting_of agents.now objects.now (is_solve mode)) bytes.now) }
    ensures fault { IfErr result (QuotasRefusedFor (setting_of agents.now objects.now (is_solve mode)) bytes.now) }
{
    let rows = records(alloc, bytes)?;
    let state = read_quota_records(alloc, &rows, agents, objects, mode)?;
    let columns = column_count(objects.len(), mode.is_solve());
    let family = close_family(
        alloc,
        state.sets.as_slice(),
        agents.len(),
        objects.len(),
        columns,
    )?;
    Ok(family)
}

/// Reads the demands that quotas state for `solve`: that of each agent, in order, and 1 where none is stated.
///
/// The conditions and faults are those of `read_quotas` for `solve`.
pub fn read_demands(
    alloc: Global,
    quotas: &[u8],
    agents: &Names,
    objects: &Names,
) -> Result<Vec<u32>, InputRefusal>
    requires size { length quotas.now ≤ file_limit }
    requires suits { IsReadFor Mode.Solve quotas.now agents.now objects.now }
    ensures value { IfOk result (λ demands. TextReadsAsDemands (setting_of agents.now objects.now true) quotas.now demands.items) }
    ensures fault { IfErr result (QuotasRefusedFor (setting_of agents.now objects.now true) quotas.now) }
{
    let rows = records(alloc, quotas)?;
    let state = read_quota_records(alloc, &rows, agents, objects, Mode::Solve)?;
    Ok(demands_of(state))
}
