//! The sets of each part as a tree, by steps over crossing sets from the set with the least number. Cells aren't known here.

ghost use Rattle.std.specs.Prelude.{◌≡◌, ◌+◌, ◌<◌, ◌≤◌, ◌↔◌, None, length, map, replicate, IfOk, IsTrue, MatchOption};
ghost use Rattle.side_finder.specs.Graphs.{IsCrossingGraph};
ghost use Rattle.side_finder.specs.Marks.{AreAllMarked, AreGrowing, AreReached, AreSearched, AreOneSided, AreTwins, HasNoTwin, IsCounted, IsTried, NoTwins, side_of};

use crate::crossings::Crossings;
use std::alloc::{AllocError, Global};

/// How a set is reached. Sets are named by their indexes, from 0.
#[derive(Clone, Copy, Debug)]
pub(crate) struct Mark {
    /// The set that it is reached from, or itself where it is the first of its part.
    pub(crate) up: u32,
    /// After how many steps.
    pub(crate) depth: u32,
    /// The first set of its part.
    pub(crate) start: u32,
}

/// Marks a set that has no mark and crosses one with this mark, and answers whether it did.
fn try_mark(
    crossings: &Crossings,
    up: u32,
    mark: Mark,
    set: u32,
    marks: &mut [Option<Mark>],
) -> bool
    requires size { length marks.old ≡ crossings.now.size }
    requires known { up < crossings.now.size }
    requires set { set < crossings.now.size }
    requires shallow { mark.depth ≤ 2000 }
    ensures { IsTried crossings.now up mark set marks.old marks.new result }
{
    if marks[set as usize].is_some() {
        return false;
    }
    if !crossings.cross(up, set) {
        return false;
    }
    marks[set as usize] = Some(Mark {
        up,
        depth: mark.depth + 1,
        start: mark.start,
    });
    true
}

/// Marks each set without a mark that crosses one with this mark, and answers whether there was one.
fn reach(crossings: &Crossings, up: u32, mark: Mark, marks: &mut [Option<Mark>]) -> bool
    requires size { length marks.old ≡ crossings.now.size }
    requires known { up < crossings.now.size }
    requires shallow { mark.depth ≤ 2000 }
    ensures reached { AreReached crossings.now up mark crossings.now.size marks.old marks.new }
    ensures counted { IsCounted result marks.old marks.new }
{
    let mut any = false;
    for set in 0..crossings.len() {
        any |= try_mark(crossings, up, mark, set, marks);
    }
    any
}

/// The same for a set of one part at one depth. A set of another part or depth is passed.
fn grow_from(
    crossings: &Crossings,
    start: u32,
    depth: u32,
    up: u32,
    marks: &mut [Option<Mark>],
) -> bool
    requires graph { IsCrossingGraph crossings.now }
    requires shallow { depth ≤ 2000 }
    requires known { up < crossings.now.size }
    requires before { AreGrowing crossings.now start depth up (depth + 1) marks.old }
    ensures grown { AreGrowing crossings.now start depth (up + 1) (depth + 1) marks.new }
    ensures counted { IsCounted result marks.old marks.new }
{
    let found = marks[up as usize];
    let Some(mark) = found else {
        return false;
    };
    if mark.start != start {
        return false;
    }
    if mark.depth != depth {
        return false;
    }
    reach(crossings, up, mark, marks)
}

/// Marks what crosses the sets of one part at one depth, and answers whether there was a set to mark.
fn grow(crossings: &Crossings, start: u32, depth: u32, marks: &mut [Option<Mark>]) -> bool
    requires graph { IsCrossingGraph crossings.now }
    requires shallow { depth ≤ 2000 }
    requires before { AreGrowing crossings.now start depth 0 depth marks.old }
    ensures grown { AreGrowing crossings.now start depth crossings.now.size (depth + 1) marks.new }
    ensures counted { IsCounted result marks.old marks.new }
{
    let mut any = false;
    for up in 0..crossings.len() {
        any |= grow_from(crossings, start, depth, up, marks);
    }
    any
}

/// Marks the part of a set, unless it has a mark. Else it is the set with the least number of its part.
fn spread(crossings: &Crossings, start: u32, marks: &mut [Option<Mark>])
    requires graph { IsCrossingGraph crossings.now }
    requires known { start < crossings.now.size }
    requires before { AreSearched crossings.now start marks.old }
    ensures { AreSearched crossings.now (start + 1) marks.new }
{
    if marks[start as usize].is_some() {
        return;
    }
    marks[start as usize] = Some(Mark {
        up: start,
        depth: 0,
        start,
    });
    let mut depth = 0;
    while grow(crossings, start, depth, marks) {
        depth += 1;
    }
}

/// So many sets without a mark.
fn no_marks(alloc: Global, sets: u32) -> Result<Vec<Option<Mark>>, AllocError>
    ensures { IfOk result (λ marks. marks.items ≡ replicate sets None) }
{
    let marks = vec![in alloc; None; sets as usize]?;
    Ok(marks)
}

/// The marks of all sets.
pub(crate) fn forest_of(
    alloc: Global,
    crossings: &Crossings,
) -> Result<Vec<Option<Mark>>, AllocError>
    requires { IsCrossingGraph crossings.now }
    ensures { IfOk result (λ marks. AreAllMarked crossings.now marks.items) }
{
    let mut marks = no_marks(alloc, crossings.len())?;
    for start in 0..crossings.len() {
        spread(crossings, start, &mut marks);
    }
    Ok(marks)
}

/// The side of a set with this mark.
fn side_of(mark: Option<Mark>) -> u8
    ensures { result ≡ side_of mark }
{
    match mark {
        Some(mark) => 1 + (mark.depth % 2) as u8,
        None => 1,
    }
}

/// The sides of all sets.
pub(crate) fn sides_of(alloc: Global, marks: &[Option<Mark>]) -> Result<Vec<u8>, AllocError>
    ensures { IfOk result (λ sides. sides.items ≡ map side_of marks.now) }
{
    let mut sides = Vec::new(alloc);
    for mark in marks {
        sides.push(side_of(*mark))?;
    }
    Ok(sides)
}

/// Whether two sets cross and have one side.
fn are_twins(crossings: &Crossings, marks: &[Option<Mark>], first: u32, second: u32) -> bool
    requires size { length marks.now ≡ crossings.now.size }
    requires first { first < crossings.now.size }
    requires second { second < crossings.now.size }
    ensures { IsTrue result ↔ AreOneSided crossings.now marks.now first second }
{
    crossings.cross(first, second)
        && side_of(marks[first as usize]) == side_of(marks[second as usize])
}

/// A set that crosses this one and has its side.
fn twin_of(crossings: &Crossings, marks: &[Option<Mark>], first: u32) -> Option<u32>
    requires size { length marks.now ≡ crossings.now.size }
    requires known { first < crossings.now.size }
    ensures { MatchOption result (HasNoTwin crossings.now marks.now first)
        (AreTwins crossings.now marks.now first) }
{
    for second in 0..crossings.len() {
        if are_twins(crossings, marks, first, second) {
            return Some(second);
        }
    }
    None
}

/// Two sets that cross and have one side.
pub(crate) fn twins(crossings: &Crossings, marks: &[Option<Mark>]) -> Option<(u32, u32)>
    requires { length marks.now ≡ crossings.now.size }
    ensures { MatchOption result (NoTwins crossings.now marks.now)
        (λ pair. AreTwins crossings.now marks.now pair.0 pair.1) }
{
    for first in 0..crossings.len() {
        if let Some(second) = twin_of(crossings, marks, first) {
            return Some((first, second));
        }
    }
    None
}
