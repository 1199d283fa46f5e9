// Pairs of sets of cells: what they share, whether they cross, whether one stands above the other. Here alone cells
// are read. Nothing here goes over all sets of a family or takes memory.

ghost use Rattle.std.specs.Prelude.{◌≡◌, ◌↔◌, All, count_by, IsTrue, IfSome, MatchOption};
ghost use Rattle.definitions.specs.Hierarchies.{IsAbove, IsLower};
ghost use Rattle.definitions.specs.Sets.{IsBefore, IsCellWithin, IsRising, IsSet, crosses, holds, set_cells, set_side};
ghost use Rattle.bihierarchy.specs.Crossing.{CrossOnOneSide};

use quota_sets::{Cell, Family};

/// Whether a cell comes before another by agent and then object.
fn is_before(a: Cell, b: Cell) -> bool
    ensures { IsTrue result ↔ IsBefore a b }
{
    a < b
}

/// How many cells two rising lists share.
fn shared_cells(a: &[Cell], b: &[Cell]) -> usize
    requires first { IsRising a.now }
    requires second { IsRising b.now }
    ensures { result ≡ count_by (holds b.now) a.now }
{
    let mut shared = 0;
    let mut i = 0;
    let mut j = 0;
    while i < a.len() && j < b.len() {
        let (x, y) = (a[i], b[j]);
        if is_before(x, y) {
            i += 1;
        } else if is_before(y, x) {
            j += 1;
        } else {
            shared += 1;
            i += 1;
            j += 1;
        }
    }
    shared
}

/// Whether two rising lists share a cell, and neither holds all cells of the other.
fn cross(a: &[Cell], b: &[Cell]) -> bool
    requires first { IsRising a.now }
    requires second { IsRising b.now }
    ensures { result ≡ crosses a.now b.now }
{
    let shared = shared_cells(a, b);
    if shared == 0 {
        return false;
    }
    shared < a.len() && shared < b.len()
}

/// The cells of a set of a family.
pub(crate) fn cells_of(family: &Family, set: u32) -> &[Cell]
    requires { IsSet family.now set }
    ensures value { result.now ≡ set_cells family.now set }
    ensures rise { IsRising (set_cells family.now set) }
    ensures inside { All (IsCellWithin family.now.agents family.now.columns)
        (set_cells family.now set) }
{
    family.get(set).unwrap().cells()
}

/// The side of a set of a family.
pub(crate) fn side_of(family: &Family, set: u32) -> u8
    requires { IsSet family.now set }
    ensures { result ≡ set_side family.now set }
{
    family.get(set).unwrap().side()
}

/// Whether two sets of a family are of one side and cross.
pub(crate) fn cross_on_one_side(family: &Family, first: u32, second: u32) -> bool
    requires first { IsSet family.now first }
    requires second { IsSet family.now second }
    ensures { IsTrue result ↔ CrossOnOneSide family.now first second }
{
    side_of(family, first) == side_of(family, second)
        && cross(cells_of(family, first), cells_of(family, second))
}

/// Whether a set comes before another by size and then number.
fn is_lower(family: &Family, first: u32, second: u32) -> bool
    requires first { IsSet family.now first }
    requires second { IsSet family.now second }
    ensures { IsTrue result ↔ IsLower family.now first second }
{
    let size = cells_of(family, first).len();
    let other = cells_of(family, second).len();
    size < other || size == other && first < second
}

/// Whether a set comes before the best so far by size and then number, or there is no best yet.
pub(crate) fn is_least(family: &Family, set: u32, best: Option<u32>) -> bool
    requires set { IsSet family.now set }
    requires best { IfSome best (IsSet family.now) }
    ensures { MatchOption best (IsTrue result) (λ t. IsTrue result ↔ IsLower family.now set t) }
{
    match best {
        Some(other) => is_lower(family, set, other),
        None => true,
    }
}

/// Whether a set stands above another: it is of that set's side, contains it, and comes after it by size and then
/// number.
pub(crate) fn is_above(family: &Family, set: u32, upper: u32) -> bool
    requires set { IsSet family.now set }
    requires upper { IsSet family.now upper }
    ensures { IsTrue result ↔ IsAbove family.now set upper }
{
    let cells = cells_of(family, set);
    let upper_cells = cells_of(family, upper);
    if side_of(family, set) != side_of(family, upper) || !is_lower(family, set, upper) {
        return false;
    }
    shared_cells(cells, upper_cells) == cells.len()
}
