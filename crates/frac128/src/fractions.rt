//! Fractions in lowest terms, in the order of their values.

ghost use Rattle.std.specs.Prelude.{◌≡◌, ℕ, ◌+◌, ◌*◌, ◌^◌, ◌≤◌, refl};
ghost use Rattle.std.specs.Int.{◌∣◌};
ghost use Rattle.frac128.specs.Order.{cross_cmp};

use crate::divisors::gcd;
use std::cmp::Ordering;

/// A fraction in lowest terms, with a denominator of at least 1. Fractions are equal where their
/// values are, and in the order of their values.
#[derive(Clone, Copy, Debug, PartialEq, Eq, Hash)]
pub struct Fraction {
    num: u128,
    den: u128,
    pub ghost positive: { 1 ≤ den },
    pub ghost lowest: { (f : ℕ) → f ∣ num → f ∣ den → f ≤ 1 },
}

impl Fraction {
    ghost use Rattle.frac128.specs.Fraction.{numerator, denominator};

    /// The fraction `num / den`, in lowest terms.
    pub fn new(num: u128, den: u128) -> Fraction
        requires { 1 ≤ den }
        ensures { numerator result * den ≡ num * denominator result }
    {
        let common = gcd(num, den);
        Fraction {
            num: num / common,
            den: den / common,
        }
    }

    /// The numerator.
    pub fn num(&self) -> u128
        ensures { result ≡ numerator self.now }
    {
        self.num
    }

    /// The denominator, at least 1.
    pub fn den(&self) -> u128
        ensures { result ≡ denominator self.now }
    {
        self.den
    }

    /// The moment at which an amount is used up: self + rest / (unit · rate). The amount is `rest`
    /// over the denominator `unit`; from the moment `self`, which is at most 1, it falls at the
    /// speed `rate`. Every number on the way is at most 2,000 · 2^116, which is below 2^127.
    pub fn later(self, rest: u128, unit: u128, rate: u128) -> Fraction
        requires at_most_one { numerator self ≤ denominator self }
        requires divides { denominator self ∣ unit }
        requires unit_positive { 1 ≤ unit }
        requires unit_bound { unit ≤ 2 ^ 116 }
        requires rate_positive { 1 ≤ rate }
        requires rate_bound { rate ≤ 1000 }
        requires rest_bound { rest ≤ 1000 * unit }
        ensures { numerator result * (denominator self * (unit * rate))
            ≡ denominator result * (numerator self * (unit * rate) + rest * denominator self) }
    {
        Fraction::new(self.num * (unit / self.den) * rate + rest, unit * rate)
    }
}

impl PartialOrd for Fraction {
    ghost use Rattle.std.specs.Ordering.{as_partial_cmp};
    ghost use Rattle.frac128.specs.Order.{cross_laws};
    ghost use Rattle.frac128.specs.Fraction.{fraction_cmp};

    ghost partial_cmp = { as_partial_cmp fraction_cmp };

    ghost laws = { cross_laws (λ x. x.num) (λ x. x.den) (λ x. x.positive) (λ x. x.lowest) };

    fn partial_cmp(&self, other: &Fraction) -> Option<Ordering> {
        Some(self.cmp(other))
    }
}

impl Ord for Fraction {
    ghost use Rattle.frac128.specs.Order.{cross_total, cross_ties};
    ghost use Rattle.frac128.specs.Fraction.{fraction_cmp};

    ghost cmp = { fraction_cmp };

    ghost total = { cross_total (λ x. x.num) (λ x. x.den) (λ x. x.positive) };

    ghost matches_partial_cmp = { λ x y. refl };

    ghost matches_eq = { cross_ties (λ x. x.num) (λ x. x.den) (λ x. x.positive) (λ x. x.lowest) };

    fn cmp(&self, other: &Fraction) -> Ordering {
        compare(self.num, self.den, other.num, other.den)
    }
}

/// How a / b compares with c / d: by the quotients, and where these are equal by what is left,
/// upside down.
fn compare(mut a: u128, mut b: u128, mut c: u128, mut d: u128) -> Ordering
    requires b_positive { 1 ≤ b }
    requires d_positive { 1 ≤ d }
    ensures { result ≡ cross_cmp a b c d }
{
    loop {
        let by_quotient = (a / b).cmp(&(c / d));
        if by_quotient.is_ne() {
            return by_quotient;
        }
        let of_first = a % b;
        let of_second = c % d;
        if of_first == 0 || of_second == 0 {
            return of_first.cmp(&of_second);
        }
        a = d;
        c = b;
        b = of_second;
        d = of_first;
    }
}
