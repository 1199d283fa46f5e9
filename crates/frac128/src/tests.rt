//! Values worked out by hand, most of them at the ends of the type.

use crate::{Beyond, Fraction, gcd, lcm_within};
use std::cmp::Ordering;

const HALF: u128 = 1 << 127;

// The lines at the head of the crate.
#[test]
fn fractions_and_multiples(rt: HostRuntime) {
    let half = Fraction::new(3, 6);
    assert_eq!(rt; half.num(), 1);
    assert_eq!(rt; half.den(), 2);
    assert!(rt; half < Fraction::new(2, 3));
    assert_eq!(rt; half.later(1, 6, 3), Fraction::new(5, 9));

    assert_eq!(rt; gcd(12, 18), 6);
    assert_eq!(rt; lcm_within(4, 6, 12), Ok(12));
    assert_eq!(rt; lcm_within(4, 6, 11), Err(Beyond { lcm: 12 }));
}

#[test]
fn multiples_at_the_limit(rt: HostRuntime) {
    let word = 1 << 64;
    assert_eq!(rt; gcd(0, 0), 0);
    assert_eq!(rt; gcd(HALF, 3 << 64), word);
    assert_eq!(rt;
        lcm_within(word, word - 1, u128::MAX),
        Ok(u128::MAX - (word - 1))
    );
    assert_eq!(rt;
        lcm_within(HALF, 3, u128::MAX),
        Err(Beyond { lcm: u128::MAX })
    );
    assert_eq!(rt;
        lcm_within(u128::MAX, u128::MAX - 1, 1),
        Err(Beyond { lcm: u128::MAX })
    );
}

#[test]
fn order_of_values(rt: HostRuntime) {
    let unit = 1 << 116;
    for (a, b, c, d, want) in [
        (2, 4, 3, 6, Ordering::Equal),
        (0, 1, 0, 5, Ordering::Equal),
        (unit / 2 - 1, unit, unit - 1, unit + 1, Ordering::Less),
        (HALF, HALF - 1, u128::MAX, u128::MAX - 1, Ordering::Greater),
    ] {
        let first = Fraction::new(a, b);
        let second = Fraction::new(c, d);
        assert_eq!(rt; first.cmp(&second), want, "{a} / {b} and {c} / {d}");
        assert_eq!(rt; first == second, want.is_eq(), "{a} / {b} and {c} / {d}");
    }
}
