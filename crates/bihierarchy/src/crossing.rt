// The least pair of sets of one side that cross. It compares two sets at a time, makes no table and takes no memory.

ghost use Rattle.std.specs.Prelude.{MatchOption};
ghost use Rattle.definitions.specs.Sets.{IsBihierarchy, IsSet};
ghost use Rattle.bihierarchy.specs.Crossing.{IsLeastCrossing, IsFirstCrossed, CrossesNoneAfter};

use crate::overlap::cross_on_one_side;
use quota_sets::Family;

/// The least number beyond `first` of a set of its side that crosses it.
fn first_after(family: &Family, first: u32) -> Option<u32>
    requires { IsSet family.now first }
    ensures { MatchOption result (CrossesNoneAfter family.now first)
        (IsFirstCrossed family.now first) }
{
    let end = family.len() + 1;
    for second in first + 1..end {
        if cross_on_one_side(family, first, second) {
            return Some(second);
        }
    }
    None
}

/// The least pair of crossing sets of one side, by the first number and then the second.
pub(crate) fn least_pair(family: &Family) -> Option<(u32, u32)>
    ensures { MatchOption result (IsBihierarchy family.now)
        (λ pair. IsLeastCrossing family.now pair.0 pair.1) }
{
    for first in 1..family.len() + 1 {
        if let Some(second) = first_after(family, first) {
            return Some((first, second));
        }
    }
    None
}
