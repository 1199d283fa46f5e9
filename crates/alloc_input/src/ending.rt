//! How the records of a first file end, preferences or a matrix.

ghost use Rattle.std.specs.Prelude.{◌≡◌, ◌+◌, None, length, MatchResult};
ghost use Rattle.definitions.specs.Firsts.{numbered};
ghost use Rattle.alloc_input.specs.Checks.{IsFaultOf};
ghost use Rattle.alloc_input.specs.Prefs.{agents_of, check_end, has_header};

use crate::faults::{InputFault, InputKind};
use quota_sets::Names;
use table_text::Rows;

/// Whether the records of the first file end as they may: with a header, and with an agent.
#[tactic(auto, unfolding(crate::specs::Prefs::check_end))]
pub(crate) fn check_ending(rows: &Rows, header: bool, agents: &Names) -> Result<(), InputFault>
    requires header { header ≡ has_header rows.now }
    requires agents { agents.now ≡ agents_of rows.now }
    ensures { MatchResult result (λ _. check_end rows.now ≡ None) (IsFaultOf 1 (numbered rows.now (check_end rows.now))) }
{
    if !header {
        return Err(fault_at_end(rows, InputKind::NoHeader));
    }
    if agents.len() == 0 {
        return Err(fault_at_end(rows, InputKind::NoAgents));
    }
    Ok(())
}

// What is missing after the last record.
fn fault_at_end(rows: &Rows, kind: InputKind) -> InputFault
    ensures { result ≡ record { file = 1; record_no = length rows.now + 1; kind = kind } }
{
    InputFault {
        file: 1,
        record_no: rows.next_number(),
        kind,
    }
}
