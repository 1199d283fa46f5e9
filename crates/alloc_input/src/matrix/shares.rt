//! The record of an agent in a matrix: a share of each object.

ghost use Rattle.std.specs.Prelude.{◌≡◌, ◌≤◌, ◌<◌, ◌*◌, ◌++◌, ◌∷◌, [], length, nat_le, IfOk, IsErrOf, OnOk};
ghost use Rattle.definitions.specs.Texts.{first_field};
ghost use Rattle.frac128.specs.Fraction.{numerator, denominator};
ghost use Rattle.scaled_matrix.specs.Entries.{ratio_of};
ghost use Rattle.alloc_input.specs.Checks.{Checks, Finds};
ghost use Rattle.alloc_input.specs.Matrices.{IsSameShare, check_entries, check_entry, check_shares, share_in, shares_of};
ghost use Rattle.alloc_input.specs.MatrixReading.{AddsShares, AreLimited, WantsForEntry};
ghost use Rattle.alloc_input.specs.declared.faults.Stop.TheVariants as stop;

use crate::faults::{InputKind, Stop};
use crate::fields::{add_name, need, need_new, read_name};
use crate::limits::{GREATEST_SHARE, MOST_AGENTS};
use frac128::Fraction;
use quota_sets::Names;
use table_text::{Row, read_share};

/// Takes the record of one agent.
#[tactic(auto, unfolding(crate::specs::Matrices::check_shares))]
pub(crate) fn take_shares(
    row: &Row,
    objects: &Names,
    agents: &mut Names,
    entries: &mut Vec<Fraction>,
) -> Result<(), Stop>
    requires some { 0 < length row.now }
    requires limited { AreLimited entries.old.items }
    ensures taken { Checks result (check_shares objects.now agents.old row.now)
        (λ _. (agents.new ≡ agents.old ++ first_field row.now ∷ []) × AddsShares entries.old.items entries.new.items (shares_of (length objects.now) row.now)) }
    ensures limited { OnOk result (AreLimited entries.new.items) }
{
    let text = row.field(0);
    let name = read_name(text)?;
    need_new(agents, text, InputKind::RepeatedAgent)?;
    need(agents.len() < MOST_AGENTS, InputKind::OverLimit)?;
    need(
        row.len() - 1 <= objects.len() as usize,
        InputKind::WrongLength,
    )?;
    read_entries(row, objects.len(), entries)?;
    add_name(agents, name)?;
    Ok(())
}

// Adds the entries of an agent's record, one for each column. One that is missing is read as an empty field.
#[tactic(auto, unfolding(crate::specs::Matrices::check_entries))]
fn read_entries(row: &Row, columns: u32, entries: &mut Vec<Fraction>) -> Result<(), Stop>
    requires { AreLimited entries.old.items }
    ensures read { Checks result (check_entries columns row.now) (λ _. AddsShares entries.old.items entries.new.items (shares_of columns row.now)) }
    ensures limited { OnOk result (AreLimited entries.new.items) }
    ensures memory { IsErrOf result stop.NoMemory → WantsForEntry columns row.now }
{
    for k in 0..columns {
        let text = row.field_at(k as usize + 1);
        let share = read_entry(text)?;
        entries.push(share)?;
    }
    Ok(())
}

// The share of an entry.
#[tactic(auto, unfolding(crate::specs::Matrices::check_entry))]
fn read_entry(text: &[u8]) -> Result<Fraction, InputKind>
    ensures read { Finds result (check_entry text.now) (λ x. IsSameShare (ratio_of x) (share_in text.now)) }
    ensures limited { IfOk result (λ x. numerator x ≤ 1000 * denominator x) }
{
    let Some((num, den)) = read_share(text) else {
        return Err(InputKind::BadNumber);
    };
    need(is_within_limit(num, den), InputKind::OverLimit)?;
    Ok(Fraction::new(num, den))
}

// Whether a share is at most 1,000. A quotient tells, since the product may be above what the type holds.
fn is_within_limit(num: u128, den: u128) -> bool
    requires { 0 < den }
    ensures { result ≡ nat_le num (1000 * den) }
{
    num.saturating_sub(1) / den < GREATEST_SHARE
}
