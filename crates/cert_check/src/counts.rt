//! What pieces give at cells and over sets, and how many sums are fractional.

ghost use Rattle.std.specs.Prelude.{◌≡◌, ◌<◌, ◌+◌, ◌*◌, ◌≤◌, ◌^◌, length, count_by};
ghost use Rattle.definitions.specs.Sets.{IsScaledMatrix, cell_of, cells_of, set_sum, unit_at};
ghost use Rattle.definitions.specs.Rounding.{fractional_count, is_fractional};
ghost use Rattle.definitions.specs.Pieces.{piece_count};
ghost use Rattle.cert_check.specs.PieceFaults.{AreRising, IsFamilyMatrix, IsSmallMatrix, gives_at, is_rounded, pieces_value, weight_at, whole_count};

use quota_sets::{Cell, Family, Give, Pieces, Scaled};

// What a piece gives.
pub fn gives_of(pieces: &Pieces, piece: usize) -> &[Give]
    requires { piece < length (pieces_value pieces.now) }
    ensures { result.now ≡ gives_at (pieces_value pieces.now) piece }
{
    &pieces.list[piece].gives
}

// The weight of a piece.
pub fn weight_of(pieces: &Pieces, piece: usize) -> u128
    requires { piece < length (pieces_value pieces.now) }
    ensures { result ≡ weight_at (pieces_value pieces.now) piece }
{
    pieces.list[piece].weight
}

// How much rising gives give at a cell.
pub fn count_of(gives: &[Give], agent: u32, object: u32) -> u32
    requires { AreRising gives.now }
    ensures { result ≡ piece_count gives.now (cell_of agent object) }
{
    let place = gives.partition_point(|give| {
        give.agent < agent || give.agent == agent && give.object < object
    });
    if place < gives.len() {
        let give = gives[place];
        if give.agent == agent && give.object == object {
            give.count
        } else {
            0
        }
    } else {
        0
    }
}

// How much rising gives give over the cells of a set.
pub fn set_count(gives: &[Give], cells: &[Cell]) -> u64
    requires rise { AreRising gives.now }
    requires few { length cells.now ≤ 1201000 }
    ensures { result ≡ set_sum (piece_count gives.now) cells.now }
{
    let mut total = 0;
    for cell in cells {
        total += u64::from(count_of(gives, cell.agent, cell.object));
    }
    total
}

// Whether m is y over d, rounded down or up.
pub fn rounds(y: u128, d: u128, m: u128) -> bool
    requires some { 1 ≤ d }
    requires room { y + d < 2 ^ 128 }
    ensures { result ≡ is_rounded y d m }
{
    m == y / d || m == (y + d - 1) / d
}

// How many cells and sets have a sum that is no multiple of the denominator.
pub fn fractional(family: &Family, x: &Scaled) -> u64
    requires given { IsFamilyMatrix family.now x.now }
    ensures { result ≡ fractional_count x.now.columns (cells_of family.now)
        x.now.units x.now.denominator }
{
    fractional_cells(x) + fractional_sets(family, x)
}

// How many cells have units that are no multiple of the denominator.
fn fractional_cells(x: &Scaled) -> u64
    requires lawful { IsScaledMatrix x.now }
    requires small { IsSmallMatrix x.now }
    ensures value { result ≡ count_by (is_fractional x.now.denominator) x.now.units }
    ensures few { result ≤ 201000 }
{
    let columns = x.columns();
    let mut count = 0;
    for index in 0..x.agents() * columns {
        let cell = Cell {
            agent: index / columns,
            object: index % columns,
        };
        if x.at(cell) % x.denominator() != 0 {
            count += 1;
        }
    }
    count
}

// How many cells have at least the denominator.
pub fn whole_cells(x: &Scaled) -> u64
    requires lawful { IsScaledMatrix x.now }
    requires small { IsSmallMatrix x.now }
    ensures { result ≡ whole_count x.now }
{
    let columns = x.columns();
    let mut count = 0;
    for index in 0..x.agents() * columns {
        let cell = Cell {
            agent: index / columns,
            object: index % columns,
        };
        if x.at(cell) >= x.denominator() {
            count += 1;
        }
    }
    count
}

// How many sets have a sum that is no multiple of the denominator.
fn fractional_sets(family: &Family, x: &Scaled) -> u64
    requires given { IsFamilyMatrix family.now x.now }
    ensures value { result ≡ count_by
        (λ s. is_fractional x.now.denominator (set_sum (unit_at x.now.columns x.now.units) s))
        (cells_of family.now) }
    ensures few { result ≤ 2000 }
{
    let mut count = 0;
    for index in 0..family.len() {
        if family.sum(index + 1, x) % x.denominator() != 0 {
            count += 1;
        }
    }
    count
}
