//! Keys in an order, and the numbers in falling order.

ghost use Rattle.std.specs.Prelude.{ℕ, ◌≤◌, MatchBool};

/// Keys in an order, in which of two keys one comes before the other, or with it.
pub trait Key: Copy + Drop {
    /// The first key comes before the second, or with it.
    ghost not_after: { Self → Self → Type 0 };

    /// Whether this key comes before the other, or with it.
    fn precedes(&self, other: &Self) -> bool
        ensures { MatchBool result (not_after self.now other.now) (not_after other.now self.now) };

    /// A key comes with itself.
    ghost reflexive: { (x : Self) → not_after x x };

    /// What comes before a second key, or with it, does so before what that one comes before.
    ghost transitive: { (x y z : Self) → not_after x y → not_after y z → not_after x z };
}

/// A number as a key: the greatest comes first.
#[derive(Clone, Copy, Debug)]
pub struct Falling(pub u128);

impl Key for Falling {
    ghost use Rattle.std.proofs.Math.Nat.{le_refl, le_trans};

    ghost not_after = { λ x y. y.0 ≤ x.0 };

    ghost reflexive = { λ x. le_refl x.0 };

    ghost transitive = { λ x y z before after. le_trans after before };

    fn precedes(&self, other: &Falling) -> bool {
        self.0 >= other.0
    }
}
