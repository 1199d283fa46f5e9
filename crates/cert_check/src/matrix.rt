//! Checks 5 and 6: a matrix is the one that is due.

ghost use Rattle.std.specs.Prelude.{◌≡◌, ◌<◌, ◌+◌, ◌^◌, ◌↔◌};
ghost use Rattle.definitions.specs.Sets.{IsScaledMatrix};
ghost use Rattle.definitions.specs.Firsts.{first_in};
ghost use Rattle.cert_check.specs.Verdicts.{verdict_of};
ghost use Rattle.cert_check.specs.MatrixFaults.{AreSame, HaveOneShape, denominator_fault, entry_fault, entry_look, first_matrix_fault};

use crate::faults::Fault;
use crate::verdicts::Verdict;
use quota_sets::{Cell, Scaled};

/// Whether a matrix has the denominator and the units of the one that is due. The two have one shape. It takes no
/// memory.
pub fn check_matrix(due: &Scaled, found: &Scaled) -> Verdict
    requires { HaveOneShape due.now found.now }
    ensures exact { result ≡ verdict_of (first_matrix_fault due.now found.now) }
    ensures pass { (result ≡ Verdict.Pass) ↔ AreSame due.now found.now }
{
    Verdict::of(first_fault(due, found))
}

// The first fault, if there is one.
fn first_fault(due: &Scaled, found: &Scaled) -> Option<Fault>
    requires { HaveOneShape due.now found.now }
    ensures value { result ≡ first_matrix_fault due.now found.now }
    ensures due { IsScaledMatrix due.now }
    ensures found { IsScaledMatrix found.now }
{
    if let Some(fault) = denominators(due, found) {
        return Some(fault);
    }
    entries(due, found)
}

// Check 5: the denominators are equal.
fn denominators(due: &Scaled, found: &Scaled) -> Option<Fault>
    ensures value { result ≡ denominator_fault due.now found.now }
    ensures due { IsScaledMatrix due.now }
    ensures found { IsScaledMatrix found.now }
{
    let due = due.denominator();
    let found = found.denominator();
    if due == found {
        None
    } else {
        Some(Fault::DenominatorDiffers { due, found })
    }
}

// Check 6 at a cell: the units are equal.
fn entry_at(due: &Scaled, found: &Scaled, agent: u32, object: u32) -> Option<Fault>
    requires shape { HaveOneShape due.now found.now }
    requires agent { agent < due.now.agents }
    requires agent_no { agent + 1 < 2 ^ 32 }
    requires object { object < due.now.columns }
    requires object_no { object + 1 < 2 ^ 32 }
    ensures { result ≡ entry_look due.now found.now agent object }
{
    let cell = Cell { agent, object };
    if due.at(cell) == found.at(cell) {
        None
    } else {
        Some(Fault::EntryDiffers {
            agent: agent + 1,
            column: object + 1,
            due: due.at(cell),
            found: found.at(cell),
        })
    }
}

// Check 6 in a row.
fn entries_in(due: &Scaled, found: &Scaled, agent: u32) -> Option<Fault>
    requires shape { HaveOneShape due.now found.now }
    requires agent { agent < due.now.agents }
    requires agent_no { agent + 1 < 2 ^ 32 }
    ensures { result ≡ first_in (entry_look due.now found.now agent) 0 due.now.columns }
{
    for object in 0..due.columns() {
        if let Some(fault) = entry_at(due, found, agent, object) {
            return Some(fault);
        }
    }
    None
}

// Check 6.
fn entries(due: &Scaled, found: &Scaled) -> Option<Fault>
    requires { HaveOneShape due.now found.now }
    ensures { result ≡ entry_fault due.now found.now }
{
    for agent in 0..due.agents() {
        if let Some(fault) = entries_in(due, found, agent) {
            return Some(fault);
        }
    }
    None
}
