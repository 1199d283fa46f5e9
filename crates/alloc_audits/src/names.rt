// Checks 1 and 2 for given shares: the names of agents and of columns are those given.
ghost use Rattle.std.specs.Prelude.{◌≡◌, ◌≤◌, length};
ghost use Rattle.alloc_audits.specs.NameFaults.{first_difference, first_name_fault, name_look};
ghost use Rattle.alloc_audits.specs.Verdicts.{result_at};

use cert_check::{Fault, is_same_name};
use quota_sets::Names;

// The place, from 1, where the lists differ there.
fn difference_at(due: &Names, found: &Names, place: u32) -> Option<u32>
    requires { place ≤ 1000 }
    ensures { result ≡ name_look due.now found.now place }
{
    if is_same_name(due, found, place) {
        None
    } else {
        Some(place + 1)
    }
}

// The first place, from 1, at which the lists differ.
fn first_difference(due: &Names, found: &Names) -> Option<u32>
    requires { length due.now ≤ 1000 }
    ensures { result ≡ first_difference due.now found.now }
{
    for place in 0..due.len() + 1 {
        if let Some(number) = difference_at(due, found, place) {
            return Some(number);
        }
    }
    None
}

/// Whether a lottery's agents and columns are those that are due, of which there are at most 1,000.
pub fn check_names(
    agents: &Names,
    columns: &Names,
    agents_found: &Names,
    columns_found: &Names,
) -> Result<(), Fault>
    requires agents { length agents.now ≤ 1000 }
    requires columns { length columns.now ≤ 1000 }
    ensures { result ≡ result_at
        (first_name_fault agents.now columns.now agents_found.now columns_found.now) }
{
    if let Some(place) = first_difference(agents, agents_found) {
        return Err(Fault::AgentsDiffer { place });
    }
    if let Some(place) = first_difference(columns, columns_found) {
        return Err(Fault::ColumnsDiffer { place });
    }
    Ok(())
}
