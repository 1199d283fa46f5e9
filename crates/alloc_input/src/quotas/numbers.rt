//! Numbers that are collected, each once, in rising order.

ghost use Rattle.std.specs.Prelude.{◌≡◌, ◌≢◌, ◌≤◌, ◌<◌, ◌+◌, ◌||◌, ◌&&◌, ◌==◌, [], ◌++◌, ◌∷◌, ◌^◌, ℕ, length, map, nat_lt, OnOk, IfOk, IfSome, IsSomeAnd};
ghost use Rattle.std.specs.Bool.{OnTrue};
ghost use Rattle.definitions.specs.Sets.{cell_of};
ghost use Rattle.alloc_input.specs.Cells.{has_number, distinct_below};
ghost use Rattle.alloc_input.specs.Numbers.{AddsNumbers, AreAmong, AreNumbersBelow, AreSetIn, IsRising};
ghost use Rattle.plane_kernel.specs.Bits.{bit_of};

use definitions::Cell;
use plane_kernel::{set_bit, within};
use std::alloc::{AllocError, Global};
use std::collections::BTreeSet;
use std::marker::Model;

/// How many words a plane has.
const WORDS: usize = 4;

/// How many bits these are.
const PLACES: u32 = 256;

/// Numbers below `PLACES`, each as the bit of its place.
pub(crate) type Plane = [u64; WORDS];

/// Numbers, each once, in rising order.
#[derive(Drop)]
pub(crate) struct NumberSet {
    set: BTreeSet<u32>,
    // Those of the numbers that a plane can have. Where all that are to be added are in it, none is looked up.
    known: Plane,
}

impl Model for NumberSet {
    ghost use Rattle.std.specs.Prelude.{List, ℕ};
    ghost use Rattle.alloc_input.specs.Numbers.{AreAmong};

    ghost Value = { List ℕ };

    ghost view = { λ s. s.set.keys };

    ghost invariant = { λ s. AreAmong s.set.keys s.known };
}

impl NumberSet {
    pub fn new(alloc: Global) -> NumberSet
        ensures { result ≡ [] }
    {
        NumberSet {
            set: BTreeSet::new(alloc),
            known: [0; WORDS],
        }
    }

    pub fn len(&self) -> usize
        ensures count { result ≡ length self.now }
        ensures within { result < 2 ^ 63 }
        ensures rising { IsRising self.now }
    {
        self.set.len()
    }

    fn insert(&mut self, number: u32) -> Result<(), AllocError>
        ensures { OnOk result ((j : ℕ) → has_number self.new j ≡ (has_number self.old j || (number == j))) }
    {
        self.set.insert(number)?;
        note(&mut self.known, number);
        Ok(())
    }

    fn insert_below(&mut self, below: u32, number: u32) -> Result<(), AllocError>
        ensures { OnOk result (AddsNumbers below (number ∷ []) self.old self.new) }
    {
        if number >= below {
            return Ok(());
        }
        self.insert(number)
    }

    // Whether there is a plane, and all its numbers are known to be there.
    fn knows(&self, plane: Option<Plane>) -> bool
        ensures { OnTrue result (IsSomeAnd plane (AreAmong self.now)) }
    {
        match plane {
            Some(plane) => within(&plane, &self.known),
            None => false,
        }
    }

    /// Adds those of some numbers that are below a number. A plane of them saves looking them up where all are known.
    pub fn add(
        &mut self,
        below: u32,
        numbers: &[u32],
        plane: Option<Plane>,
    ) -> Result<(), AllocError>
        requires { IfSome plane (AreSetIn below numbers.now) }
        ensures { OnOk result (AddsNumbers below numbers.now self.old self.new) }
    {
        if self.knows(plane) {
            return Ok(());
        }
        for number in numbers {
            self.insert_below(below, *number)?;
        }
        Ok(())
    }

    /// The numbers in a list.
    pub fn to_list(&self, alloc: Global) -> Result<Vec<u32>, AllocError>
        ensures { IfOk result (λ v. v.items ≡ self.now) }
    {
        let mut list = Vec::new(alloc);
        for number in self.set.iter() {
            list.push(*number)?;
        }
        Ok(list)
    }

    /// Adds the cells of an agent in these columns at the end.
    pub fn push_cells(&self, agent: u32, cells: &mut Vec<Cell>) -> Result<(), AllocError>
        ensures { OnOk result (cells.new.items ≡ cells.old.items ++ map (cell_of agent) self.now) }
    {
        for number in self.set.iter() {
            let cell = Cell {
                agent,
                object: *number,
            };
            cells.push(cell)?;
        }
        Ok(())
    }
}

// Sets the bit of a number, if a plane has one for it.
fn note(plane: &mut Plane, number: u32)
    ensures { (j : ℕ) → bit_of plane.new j ≡ 1 → j ≢ number → bit_of plane.old j ≡ 1 }
{
    if number < PLACES {
        set_bit(plane, number);
    }
}

// Sets the bit of a number that is below another, and answers whether a plane can.
fn put(plane: &mut Plane, below: u32, number: u32) -> bool
    ensures kept { (j : ℕ) → bit_of plane.old j ≡ 1 → bit_of plane.new j ≡ 1 }
    ensures set { OnTrue result (number < below → bit_of plane.new number ≡ 1) }
{
    if number >= below {
        return true;
    }
    if number >= PLACES {
        return false;
    }
    set_bit(plane, number);
    true
}

/// A plane of those of some numbers that are below a number, if it can have them all.
pub(crate) fn plane_of(below: u32, numbers: &[u32]) -> Option<Plane>
    ensures { IfSome result (AreSetIn below numbers.now) }
{
    let mut plane = [0; WORDS];
    for number in numbers {
        if !put(&mut plane, below, *number) {
            return None;
        }
    }
    Some(plane)
}

/// Those of some numbers that are below a number, each once, in rising order.
pub(crate) fn distinct(alloc: Global, below: u32, numbers: &[u32]) -> Result<Vec<u32>, AllocError>
    ensures { IfOk result (λ v. v.items ≡ distinct_below below numbers.now) }
{
    let mut set = NumberSet::new(alloc);
    set.add(below, numbers, None)?;
    let _count = set.len();
    set.to_list(alloc)
}
