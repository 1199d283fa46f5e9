// The records of a text, one after the other, and the pact that they make. What one record says
// isn't known here.
ghost use Rattle.std.specs.Prelude.{◌≡◌, []};
ghost use Rattle.seed_pact.specs.Checks.{check_whole};
ghost use Rattle.seed_pact.specs.Pacts.{contributions_of};
ghost use Rattle.seed_pact.specs.Reading.{held, Checks, ReadsRecords};
ghost use Rattle.seed_pact.specs.Said.{said_by};

use crate::Pact;
use crate::entries::Entries;
use crate::faults::{PactKind, PactRefusal, Stop, need, refused};
use crate::records::{State, take_record};
use std::alloc::{AllocError, Global};
use table_text::Rows;

#[tactic(auto, unfolding(crate::specs::Said::said_by, crate::specs::Reading::held))]
fn start(alloc: Global) -> State
    ensures { held result ≡ said_by [] }
{
    State {
        has_head: false,
        commits: Entries::new(alloc),
        reveals: Entries::new(alloc),
    }
}

// What each name has revealed, in the order of the commitments.
#[tactic(auto, unfolding(crate::specs::Checks::check_whole, crate::specs::Reading::held))]
fn contributions_of(alloc: Global, state: &State) -> Result<Vec<[u8; 32]>, Stop>
    ensures { Checks result (check_whole (held state.now))
        (λ v. v.items ≡ contributions_of (held state.now)) }
{
    let count = state.commits.len();
    need(count > 0, PactKind::Missing)?;
    let mut contributions = Vec::new(alloc);
    for place in 0..count {
        let name = state.commits.name_at(place);
        let reveal = state.reveals.find(name.as_bytes());
        let contribution = reveal.ok_or(PactKind::Missing)?.value;
        contributions.push(contribution).map_err(AllocError::from)?;
    }
    Ok(contributions)
}

// The pact that the records of a text make.
pub(crate) fn read_records(alloc: Global, rows: &Rows) -> Result<Pact, PactRefusal>
    ensures { ReadsRecords rows.now result }
{
    let mut state = start(alloc);
    for i in 0..rows.len() {
        if let Err(stop) = take_record(alloc, rows.at(i), &mut state) {
            return Err(refused(stop, i as u64 + 1));
        }
    }
    match contributions_of(alloc, &state) {
        Ok(contributions) => Ok(Pact {
            names: state.commits.into_names(),
            contributions,
        }),
        Err(stop) => Err(refused(stop, rows.next_number())),
    }
}
