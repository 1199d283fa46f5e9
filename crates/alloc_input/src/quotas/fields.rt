//! What the fields of a record of quotas say, whatever its kind.

ghost use Rattle.std.specs.Prelude.{◌≡◌, ◌≤◌, ◌<◌, ◌+◌, ◌||◌, ◌&&◌, length, not, nat_le, IfOk};
ghost use Rattle.alloc_input.specs.Checks.{Finds};
ghost use Rattle.alloc_input.specs.Stated.{quota_at, floor_at, ceiling_at, side_of};
ghost use Rattle.alloc_input.specs.Quotas.{check_quota, check_quotas};

use crate::faults::InputKind;
use crate::fields::need;
use crate::limits::GREATEST_QUOTA;
use table_text::{Row, is_word, read_count};

/// The floor and the ceiling of a record.
#[derive(Clone, Copy, Debug)]
pub(crate) struct Quotas {
    pub floor: u32,
    pub ceiling: u32,
}

/// Whether a record has so many fields.
pub(crate) fn has_length(row: &Row, least: usize, most: usize) -> bool
    ensures { result ≡ (nat_le least (length row.now) && nat_le (length row.now) most) }
{
    least <= row.len() && row.len() <= most
}

/// Whether a record has two fields at least.
pub(crate) fn has_two(row: &Row) -> bool
    ensures { result ≡ nat_le 2 (length row.now) }
{
    2 <= row.len()
}

/// The side that a text names, or 0.
pub(crate) fn side(text: &[u8]) -> u8
    ensures value { result ≡ side_of text.now }
    ensures within { result ≤ 2 }
{
    if is_word(text, b"1") {
        return 1;
    }
    if is_word(text, b"2") {
        return 2;
    }
    0
}

/// What holds for `decompose`, or where the test holds.
pub(crate) fn unless_solve(solve: bool, holds: bool) -> bool
    ensures { result ≡ (not solve || holds) }
{
    !solve || holds
}

// A floor or ceiling.
#[tactic(auto, unfolding(crate::specs::Quotas::check_quota, crate::specs::Stated::quota_at))]
fn quota(text: &[u8], default: u32) -> Result<u32, InputKind>
    requires { default ≤ 1000 }
    ensures checked { Finds result (check_quota default text.now) (λ v. v ≡ quota_at default text.now) }
    ensures within { IfOk result (λ v. v ≤ 1000) }
{
    if text.is_empty() {
        return Ok(default);
    }
    let count = read_count(text).ok_or(InputKind::BadNumber)?;
    need(count <= GREATEST_QUOTA as u128, InputKind::OverLimit)?;
    Ok(count as u32)
}

/// A floor, and a ceiling after it.
pub(crate) fn quotas_at(row: &Row, at: usize) -> Result<Quotas, InputKind>
    requires { at < 10 }
    ensures checked { Finds result (check_quotas row.now at) (λ q. (q.floor ≡ floor_at row.now at) × (q.ceiling ≡ ceiling_at row.now (at + 1))) }
    ensures within { IfOk result (λ q. q.ceiling ≤ 1000) }
{
    let floor = quota(row.field_at(at), 0)?;
    let ceiling = quota(row.field_at(at + 1), GREATEST_QUOTA)?;
    Ok(Quotas { floor, ceiling })
}
