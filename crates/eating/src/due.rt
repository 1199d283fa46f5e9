// When limits are due: the keys by which they queue up. Rests and speeds are given; how they came about isn't known here.

ghost use Rattle.std.specs.Prelude.{◌+◌, ◌*◌, ◌<◌, ◌≤◌, ◌^◌, MatchOption};
ghost use Rattle.eating.specs.Steps.{IsKey};

use frac128::Fraction;
use key_queue::Key;

/// The moment at which a limit is full if it goes on being eaten so fast, where that is before the end.
///
/// As keys, the earliest moment comes first, and none at all comes last.
#[derive(Clone, Copy, Debug)]
pub(crate) struct Due {
    pub moment: Option<Fraction>,
}

impl Due {
    /// Of a limit that isn't full before the end, or is full already.
    pub const NEVER: Due = Due { moment: None };

    /// Of an open limit with this rest, which is eaten so fast from the moment `at` on.
    pub fn of(rest: u128, speed: u128, unit: u128, at: u128) -> Due
        requires before_end { at < unit }
        requires fine { unit ≤ 2 ^ 116 }
        requires speed { speed ≤ 1000 }
        requires rest { rest ≤ 1000 * unit }
        ensures { MatchOption result.moment (unit * speed ≤ at * speed + rest)
            (IsKey unit at rest speed) }
    {
        let amount = at * speed + rest;
        let end = unit * speed;
        if amount >= end {
            return Due::NEVER;
        }
        Due {
            moment: Some(Fraction::new(amount, end)),
        }
    }
}

impl Key for Due {
    ghost use Rattle.eating.specs.Orders.{IsNoLaterThan, no_later_chain, no_later_same};

    ghost not_after = { λ x y. IsNoLaterThan x.moment y.moment };

    ghost reflexive = { λ x. no_later_same x.moment };

    ghost transitive = { λ x y z. no_later_chain x.moment y.moment z.moment };

    fn precedes(&self, other: &Due) -> bool {
        let (Some(first), Some(second)) = (self.moment, other.moment) else {
            return other.moment.is_none();
        };
        first <= second
    }
}
