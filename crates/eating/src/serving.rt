// What each agent has in the end, and the moments of the capped cells, written into tables that are there. Nothing here
// takes memory or changes a moment.

ghost use Rattle.std.specs.Prelude.{◌≡◌, ℕ, ◌+◌, ◌-◌, ◌*◌, ◌<◌, ◌≤◌, ◌^◌, length, slice_index, All};
ghost use Rattle.definitions.specs.Eating.{share};
ghost use Rattle.definitions.specs.Values.{Agent, Market};
ghost use Rattle.eating.specs.Plan.{AreLines, IsLine, least_from};
ghost use Rattle.eating.specs.Serving.{AreListsWithin, IsRow, IsServable, IsServed, IsUncappedOffLists, cap_in};

use crate::plan::Line;
use crate::progress::least_of;

/// The least of the unit and the moments of those of these limits that come after the stated sets.
fn least_capped(holders: &[u32], moments: &[u128], unit: u128, stated: usize) -> u128
    requires { All (λ h. h < length moments.now) holders.now }
    ensures { result ≡ least_from unit moments.now stated holders.now }
{
    let mut least = unit;
    for limit in holders {
        if *limit as usize >= stated {
            least = least.min(moments[*limit as usize]);
        }
    }
    least
}

/// Writes an agent's share of each column of its list into its row, which starts at `start`.
fn serve_line(line: &Line, moments: &[u128], unit: u128, start: usize, units: &mut [u128])
    requires line { IsLine (length moments.now) line.now }
    requires demand { line.now.demand ≤ 1000 }
    requires fine { unit ≤ 2 ^ 116 }
    requires inside { All (λ a. start + a < length units.old) line.now.columns }
    ensures { (market : Market) (i : ℕ) (w : Agent) → IsServable market i w line.now moments.now
        → IsRow (share market unit moments.now i) w.list start units.old units.new }
{
    let columns = line.columns();
    let mut from = 0;
    for place in 0..columns.len() {
        let to = least_of(line.holders(place), moments, unit).max(from);
        units[start + columns[place] as usize] = line.demand() as u128 * (to - from);
        from = to;
    }
}

/// Writes the moment of each listed cell's own limit into the agent's row, which starts at `start`.
fn cap_line(
    line: &Line,
    moments: &[u128],
    unit: u128,
    stated: usize,
    start: usize,
    caps: &mut [u128],
)
    requires line { IsLine (length moments.now) line.now }
    requires inside { All (λ a. start + a < length caps.old) line.now.columns }
    ensures { (market : Market) (i : ℕ) (w : Agent) → IsServable market i w line.now moments.now
        → IsRow (cap_in market unit moments.now stated i) w.list start caps.old caps.new }
{
    let columns = line.columns();
    for place in 0..columns.len() {
        let cap = least_capped(line.holders(place), moments, unit, stated);
        caps[start + columns[place] as usize] = cap;
    }
}

/// Writes all shares of a market's table, row by row.
pub(crate) fn serve(
    lines: &[Line],
    moments: &[u128],
    unit: u128,
    columns: usize,
    units: &mut [u128],
)
    requires lines { AreLines (length moments.now) lines.now }
    requires lists { AreListsWithin columns lines.now }
    requires fine { unit ≤ 2 ^ 116 }
    requires room { length units.old ≡ length lines.now * columns }
    requires zero { (n : ℕ) → slice_index units.old n ≡ 0 }
    ensures { (market : Market) → IsServed market lines.now moments.now
        → (i a : ℕ) → i < length lines.now → a < columns
        → slice_index units.new (i * columns + a) ≡ share market unit moments.now i a }
{
    for agent in 0..lines.len() {
        serve_line(&lines[agent], moments, unit, agent * columns, units);
    }
}

/// Writes the moments of all cells' own limits, row by row, and the unit where there is none.
pub(crate) fn serve_caps(
    lines: &[Line],
    moments: &[u128],
    unit: u128,
    stated: usize,
    columns: usize,
    caps: &mut [u128],
)
    requires lines { AreLines (length moments.now) lines.now }
    requires lists { AreListsWithin columns lines.now }
    requires room { length caps.old ≡ length lines.now * columns }
    ensures { (market : Market) → IsServed market lines.now moments.now
        → IsUncappedOffLists market stated → (i a : ℕ) → i < length lines.now → a < columns
        → slice_index caps.new (i * columns + a) ≡ cap_in market unit moments.now stated i a }
{
    caps.fill(unit);
    for agent in 0..lines.len() {
        cap_line(&lines[agent], moments, unit, stated, agent * columns, caps);
    }
}
