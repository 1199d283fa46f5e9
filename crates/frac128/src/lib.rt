//! Exact fractions of 128 bits, with the greatest common divisor and the least common multiple that
//! they rest on. No call takes memory.
//!
//! ```text
//! let half = Fraction::new(3, 6);
//! assert_eq!(rt; half.num(), 1);
//! assert_eq!(rt; half.den(), 2);
//! assert!(rt; half < Fraction::new(2, 3));
//! assert_eq!(rt; half.later(1, 6, 3), Fraction::new(5, 9));
//!
//! assert_eq!(rt; gcd(12, 18), 6);
//! assert_eq!(rt; lcm_within(4, 6, 12), Ok(12));
//! assert_eq!(rt; lcm_within(4, 6, 11), Err(Beyond { lcm: 12 }));
//! ```
#![tactic(auto)]

mod divisors;
mod fractions;

pub use divisors::{Beyond, gcd, lcm_within};
pub use fractions::Fraction;

#[cfg(test)]
mod tests;
