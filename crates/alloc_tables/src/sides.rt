//! `sides`: sides for the sets of a family, whatever sides it states, or an odd ring of them.

ghost use Rattle.std.specs.Prelude.{◌≡◌, ◌++◌, ◌≤◌, length, map, IfOk, OnOk};
ghost use Rattle.alloc_outcomes.specs.Limits.{file_limit};
ghost use Rattle.alloc_outcomes.specs.Steps.{Steps};
ghost use Rattle.alloc_tables.specs.Sides.{answer_text, ring_row, ring_text, side_rows, split_text, SidesAnswers};
ghost use Rattle.table_text.specs.Rows.{rows_text};

use alloc_outcomes::{Cause, write_text};
use alloc_readings::{family_from, shares_from};
use device_core::Sink;
use side_finder::{Sides, find_sides};
use std::alloc::Global;
use table_text::{NoMemory, put_end, put_number, put_two};

// Appends the records of sides.
fn put_sides(alloc: Global, sides: &[u8], into: &mut Vec<u8>) -> Result<(), NoMemory>
    ensures { OnOk result (into.new.items
        ≡ into.old.items ++ rows_text (side_rows sides.now (length sides.now))) }
{
    for (i, side) in sides.iter().enumerate() {
        put_two(alloc, b"side", i as u128 + 1, *side as u128, into)?;
    }
    Ok(())
}

// Appends the records of the sets of a ring.
fn put_ring(alloc: Global, ring: &[u32], into: &mut Vec<u8>) -> Result<(), NoMemory>
    ensures { OnOk result (into.new.items
        ≡ into.old.items ++ rows_text (map ring_row ring.now)) }
{
    for set in ring {
        put_number(alloc, b"set", *set as u128, into)?;
    }
    Ok(())
}

// The text of a side for each set.
fn split_text(alloc: Global, sides: &[u8]) -> Result<Vec<u8>, NoMemory>
    ensures { IfOk result (λ text. text.items ≡ split_text sides.now) }
{
    let mut text = Vec::new(alloc);
    put_sides(alloc, sides, &mut text)?;
    put_end(alloc, sides.len() as u128, &mut text)?;
    Ok(text)
}

// The text of a ring.
fn ring_text(alloc: Global, ring: &[u32]) -> Result<Vec<u8>, NoMemory>
    ensures { IfOk result (λ text. text.items ≡ ring_text ring.now) }
{
    let mut text = Vec::new(alloc);
    put_number(alloc, b"ring", ring.len() as u128, &mut text)?;
    put_ring(alloc, ring, &mut text)?;
    put_end(alloc, ring.len() as u128, &mut text)?;
    Ok(text)
}

// The text of what was found.
fn answer_text(alloc: Global, sides: &Sides) -> Result<Vec<u8>, NoMemory>
    ensures { IfOk result (λ text. text.items ≡ answer_text sides.now) }
{
    match sides {
        Sides::Split(sides) => split_text(alloc, sides),
        Sides::Ring(ring) => ring_text(alloc, ring),
    }
}

/// `sides MATRIX QUOTAS`: a side for each set, so that no two sets of one side cross, or an odd ring
/// of sets that cross, where no choice of sides does. The sides that the sets state are not asked.
pub fn step<K: Sink>(alloc: Global, matrix: &[u8], quotas: &[u8], out: &mut K) -> Result<(), Cause>
    requires { length quotas.now ≤ file_limit }
    ensures { Steps K.Sink (SidesAnswers matrix.now quotas.now) out.old out.new result }
{
    let shares = shares_from(alloc, matrix)?;
    let family = family_from(alloc, &shares, quotas)?;
    let sides = find_sides(alloc, &family)?;
    let text = answer_text(alloc, &sides)?;
    write_text(&text, out)
}
