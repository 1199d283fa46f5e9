//! How large the guarded family would be.

ghost use Rattle.std.specs.Prelude.{◌≡◌, ◌≤◌, ◌↔◌, length, IsTrue};
ghost use Rattle.definitions.specs.Sets.{cells_in};
ghost use Rattle.definitions.specs.Values.{IsProblem};
ghost use Rattle.guard_sets.specs.Guard.{sets_up_to, cells_up_to};

use quota_sets::{Family, Problem};

// The most sets that a family may have.
const MOST_SETS: u64 = 2000;

// The most cells that the sets of a family may have, counted over all sets.
const MOST_CELLS: u64 = 1_201_000;

/// So many sets, with so many cells counted over all of them.
#[derive(Clone, Copy)]
pub struct Size {
    /// The number of sets.
    pub sets: u64,
    /// The number of cells.
    pub cells: u64,
}

// The number of cells of a family, counted over all sets.
fn family_cells(family: &Family) -> u64
    ensures { result ≡ cells_in family.now.sets }
{
    let mut cells: u64 = 0;
    for index in 0..family.len() {
        let set = family.get(index + 1).unwrap();
        cells += set.cells().len() as u64;
    }
    cells
}

/// The size of the problem's family with the sets of all agents' first places: the k-th has k cells.
pub fn guard_size(problem: &Problem) -> Size
    ensures sets { result.sets ≡ sets_up_to problem.now (length problem.now.agents) }
    ensures cells { result.cells ≡ cells_up_to problem.now (length problem.now.agents) }
    ensures lawful { IsProblem problem.now }
{
    let family = problem.family();
    let mut sets = u64::from(family.len());
    let mut cells = family_cells(family);
    for agent in 0..problem.agents().len() {
        let places = problem.list(agent).len() as u64;
        sets += places;
        cells += places * (places + 1) / 2;
    }
    Size { sets, cells }
}

/// Whether a family may be so large.
pub fn is_allowed(size: Size) -> bool
    ensures { IsTrue result ↔ ((size.sets ≤ 2000) × (size.cells ≤ 1201000)) }
{
    size.sets <= MOST_SETS && size.cells <= MOST_CELLS
}
