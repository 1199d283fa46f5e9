//! The greatest common divisor and the least common multiple.

ghost use Rattle.std.specs.Prelude.{◌≤◌, IfOk, IfErr};
ghost use Rattle.std.specs.Int.{IsGcd};
ghost use Rattle.frac128.specs.Lcm.{IsLcm, IsBeyond};

/// A least common multiple that is above the limit of [`lcm_within`].
#[derive(Clone, Copy, Debug, PartialEq, Eq)]
pub struct Beyond {
    /// The multiple, or the greatest `u128` where it is larger than that.
    pub lcm: u128,
}

/// The greatest common divisor, by Euclid's algorithm. That of 0 and 0 is 0.
pub fn gcd(a: u128, b: u128) -> u128
    ensures { IsGcd a b result }
{
    let mut x = a;
    let mut y = b;
    while y != 0 {
        let rest = x % y;
        x = y;
        y = rest;
    }
    x
}

/// The least common multiple, where it is at most `top`.
pub fn lcm_within(a: u128, b: u128, top: u128) -> Result<u128, Beyond>
    requires a_positive { 1 ≤ a }
    requires b_positive { 1 ≤ b }
    ensures within { IfOk result (λ l. IsLcm a b l × (l ≤ top)) }
    ensures beyond { IfErr result (λ e. IsBeyond a b top e.lcm) }
{
    match (a / gcd(a, b)).checked_mul(b) {
        Some(lcm) if lcm <= top => Ok(lcm),
        Some(lcm) => Err(Beyond { lcm }),
        None => Err(Beyond { lcm: u128::MAX }),
    }
}
