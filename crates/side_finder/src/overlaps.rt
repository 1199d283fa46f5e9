//! Which sets share cells with a set, and which contain it, for 64 sets at a time. Here alone cells are read.

ghost use Rattle.std.specs.Prelude.{◌≡◌, ◌+◌, ◌*◌, ◌<◌, ◌≤◌, ℕ, length, slice_index, All, IfOk};
ghost use Rattle.std.specs.List.{list_all, list_any};
ghost use Rattle.definitions.specs.Sets.{IsCellWithin, IsSet, cell_index, set_cells};
ghost use Rattle.side_finder.specs.Blocks.{AreEntered, AreHolders, AreOverlaps, IsOverlap, has_bit};

use definitions::Cell;
use plane_kernel::set_bit;
use quota_sets::Family;
use std::alloc::{AllocError, Global};

/// How many sets a block has: one for each bit of a word.
pub(crate) const BLOCK: u32 = 64;

/// What the sets of a block are to a set, one bit for each.
#[derive(Clone, Copy, Debug)]
pub(crate) struct Overlap {
    /// Those that share a cell with it.
    pub(crate) sharing: u64,
    /// Those that contain it.
    pub(crate) containing: u64,
}

/// The cells of a set of a family.
fn cells_of(family: &Family, set: u32) -> &[Cell]
    requires { IsSet family.now set }
    ensures value { result.now ≡ set_cells family.now set }
    ensures inside { All (IsCellWithin family.now.agents family.now.columns) result.now }
{
    family.get(set).unwrap().cells()
}

/// The place of a set's bit in the words of a cell.
fn bit_place(family: &Family, cell: Cell, bit: u32) -> u32
    requires cell { IsCellWithin family.now.agents family.now.columns cell }
    requires bit { bit < 64 }
    ensures value { result ≡ 64 * cell_index family.now.columns cell + bit }
    ensures within { result < 64 * (family.now.agents * family.now.columns) }
{
    let place = cell.agent * family.columns() + cell.object;
    64 * place + bit
}

/// Sets a bit in the words of a set's cells.
fn enter(family: &Family, set: u32, bit: u32, words: &mut [u64])
    requires set { IsSet family.now set }
    requires bit { bit < 64 }
    requires words { length words.old ≡ family.now.agents * family.now.columns }
    ensures { AreEntered family.now set bit (length (set_cells family.now set))
        words.old words.new }
{
    for cell in cells_of(family, set) {
        set_bit(words, bit_place(family, *cell, bit));
    }
}

/// Sets a bit in the words of the cells of the block's set that it stands for, if there is one.
fn enter_bit(family: &Family, block: u32, bit: u32, words: &mut [u64])
    requires block { block ≤ 1000 }
    requires bit { bit < 64 }
    requires before { AreHolders family.now block bit words.old }
    ensures { AreHolders family.now block (bit + 1) words.new }
{
    let set = BLOCK * block + bit + 1;
    if set > family.len() {
        return;
    }
    enter(family, set, bit, words)
}

/// For each cell, row by row, a word that says which sets of a block hold it.
fn words_of(alloc: Global, family: &Family, block: u32) -> Result<Vec<u64>, AllocError>
    requires { block ≤ 1000 }
    ensures { IfOk result (λ words. AreHolders family.now block 64 words.items) }
{
    let cells = family.agents() as usize * family.columns() as usize;
    let mut words = vec![in alloc; 0; cells]?;
    for bit in 0..BLOCK {
        enter_bit(family, block, bit, &mut words);
    }
    Ok(words)
}

/// What the sets of a block are to a set with these cells.
fn gather(words: &[u64], columns: u32, cells: &[Cell]) -> Overlap
    requires { All (λ c. cell_index columns c < length words.now) cells.now }
    ensures sharing { (k : ℕ) → k < 64 → has_bit result.sharing k
        ≡ list_any (λ c. has_bit (slice_index words.now (cell_index columns c)) k) cells.now }
    ensures containing { (k : ℕ) → k < 64 → has_bit result.containing k
        ≡ list_all (λ c. has_bit (slice_index words.now (cell_index columns c)) k) cells.now }
{
    let mut sharing = 0;
    let mut containing = u64::MAX;
    for cell in cells {
        let word = words[cell.agent as usize * columns as usize + cell.object as usize];
        sharing |= word;
        containing &= word;
    }
    Overlap {
        sharing,
        containing,
    }
}

/// What the sets of a block are to a set of the family, by the words of its cells.
fn overlap_of(family: &Family, words: &[u64], block: u32, set: u32) -> Overlap
    requires set { IsSet family.now set }
    requires words { AreHolders family.now block 64 words.now }
    ensures { IsOverlap family.now block set result }
{
    gather(words, family.columns(), cells_of(family, set))
}

/// What the sets of a block are to each set.
pub(crate) fn overlaps_of(
    alloc: Global,
    family: &Family,
    block: u32,
) -> Result<Vec<Overlap>, AllocError>
    requires { block ≤ 1000 }
    ensures { IfOk result (λ row.
        AreOverlaps family.now block (length family.now.sets) row.items) }
{
    let words = words_of(alloc, family, block)?;
    let mut row = Vec::new(alloc);
    for set in 1..family.len() + 1 {
        row.push(overlap_of(family, &words, block, set))?;
    }
    Ok(row)
}
