//! The reader of a matrix of shares, the first file for `decompose`. It knows no quotas.

ghost use Rattle.std.specs.Prelude.{IfErr, IfOk, OnOk};
ghost use Rattle.alloc_input.specs.Matrices.{IsMatrix, MatrixReads, MatrixRefusedFor};
ghost use Rattle.alloc_input.specs.MatrixReading.{AreLimited, ReadsMatrix, TakesMatrixRecord};

mod header;
mod shares;

use crate::ending::check_ending;
use crate::faults::{InputKind, InputRefusal, Stop, refused};
use crate::fields::need;
use crate::matrix::header::read_header;
use crate::matrix::shares::take_shares;
use frac128::Fraction;
use quota_sets::Names;
use scaled_matrix::Shares;
use std::alloc::Global;
use table_text::{Row, Rows, records};

/// What the records so far have stated.
#[derive(Drop)]
pub(crate) struct State {
    pub header: bool,
    pub objects: Names,
    pub agents: Names,
    pub entries: Vec<Fraction>,
}

/// Reads a matrix of shares, the first file: its agents, its objects, and a share for each cell.
///
/// `Fault` is the first unlawful record with the first of its checks that fails; what is missing at the end has the
/// number of the records plus 1. `NoMemory` can come at any text.
pub fn read_matrix(alloc: Global, bytes: &[u8]) -> Result<Shares, InputRefusal>
    ensures value { IfOk result (MatrixReads bytes.now) }
    ensures lawful { IfOk result IsMatrix }
    ensures fault { IfErr result (MatrixRefusedFor bytes.now) }
{
    let rows = records(alloc, bytes)?;
    read_matrix_records(alloc, &rows)
}

// Reads a matrix from the records of a text.
fn read_matrix_records(alloc: Global, rows: &Rows) -> Result<Shares, InputRefusal>
    ensures exact { ReadsMatrix rows.now result }
    ensures lawful { IfOk result IsMatrix }
{
    let mut state = State {
        header: false,
        objects: Names::new(alloc),
        agents: Names::new(alloc),
        entries: Vec::new(alloc),
    };
    for i in 0..rows.len() {
        // By hand, since the refusal says besides at which record.
        if let Err(stop) = take_record(alloc, rows.at(i), &mut state) {
            return Err(refused(stop, 1, i as u64 + 1));
        }
    }
    check_ending(rows, state.header, &state.agents)?;
    let _agent_count = state.agents.len();
    let _object_count = state.objects.len();
    let State {
        objects,
        agents,
        entries,
        ..
    } = state;
    Ok(Shares::new(agents, objects, entries))
}

// Takes one more record.
#[tactic(auto, unfolding(crate::specs::Matrices::check_matrix))]
fn take_record(alloc: Global, row: &Row, state: &mut State) -> Result<(), Stop>
    requires { AreLimited state.old.entries.items }
    ensures taken { TakesMatrixRecord row.now state.old result state.new }
    ensures limited { OnOk result (AreLimited state.new.entries.items) }
{
    if row.is_empty() {
        return Ok(());
    }
    need(row.is_text(), InputKind::NotUtf8)?;
    if state.header {
        return take_shares(row, &state.objects, &mut state.agents, &mut state.entries);
    }
    state.objects = read_header(alloc, row)?;
    state.header = true;
    Ok(())
}
