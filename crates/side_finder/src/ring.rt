//! An odd ring, by the ways up from two sets of one part and depth.

ghost use Rattle.std.specs.Prelude.{◌≡◌, ◌<◌, ◌++◌, length, IfOk, OnOk};
ghost use Rattle.side_finder.specs.Marks.{Marked, up_at};
ghost use Rattle.side_finder.specs.Ways.{ArePair, AreWaysUp, ring_from};

use crate::forest::Mark;
use std::alloc::{AllocError, Global};

/// Adds the numbers of the sets from the first up to where the ways meet, and down to the second.
fn climb(
    marks: &[Option<Mark>],
    first: u32,
    second: u32,
    ring: &mut Vec<u32>,
) -> Result<(), AllocError>
    requires ways { AreWaysUp marks.now }
    requires pair { ArePair marks.now first second }
    ensures { OnOk result (ring.new.items ≡ ring.old.items ++ ring_from marks.now first second) }
{
    ring.push(first + 1)?;
    if first == second {
        return Ok(());
    }
    climb(marks, up_from(marks, first), up_from(marks, second), ring)?;
    ring.push(second + 1)?;
    Ok(())
}

/// The set that a mark leads up to.
fn up_from(marks: &[Option<Mark>], set: u32) -> u32
    requires known { set < length marks.now }
    requires marked { Marked marks.now set }
    ensures { result ≡ up_at marks.now set }
{
    marks[set as usize].unwrap().up
}

/// The numbers of the sets from the first up to where the ways meet, and down to the second.
pub(crate) fn ring_of(
    alloc: Global,
    marks: &[Option<Mark>],
    first: u32,
    second: u32,
) -> Result<Vec<u32>, AllocError>
    requires ways { AreWaysUp marks.now }
    requires pair { ArePair marks.now first second }
    ensures { IfOk result (λ ring. ring.items ≡ ring_from marks.now first second) }
{
    let mut ring = Vec::new(alloc);
    climb(marks, first, second, &mut ring)?;
    Ok(ring)
}
