//! The moments before the end, and their numbers.

ghost use Rattle.std.specs.Prelude.{◌≡◌, ◌≤◌, IfOk, length, map};
ghost use Rattle.std.specs.List.Sorted.{IsStrictlyIncreasing};
ghost use Rattle.price_cert.specs.Moments.{IsNumbering, number_in};

use std::alloc::{AllocError, Global};

/// The moments before the end, rising, each once.
pub(crate) fn moments_before(
    alloc: Global,
    moments: &[u128],
    caps: &[u128],
    end: u128,
) -> Result<Vec<u128>, AllocError>
    ensures { IfOk result (λ v. IsNumbering end moments.now caps.now v.items) }
{
    let mut found = Vec::new(alloc);
    for moment in moments {
        if *moment < end {
            found.push(*moment)?;
        }
    }
    for cap in caps {
        if *cap < end {
            found.push(*cap)?;
        }
    }
    found.sort_unstable();
    found.dedup();
    Ok(found)
}

/// The number of a moment: one more than the moments before it.
pub(crate) fn number(order: &[u128], moment: u128) -> u64
    requires rise { IsStrictlyIncreasing order.now }
    requires few { length order.now ≤ 202000 }
    ensures { result ≡ number_in order.now moment }
{
    order.partition_point(|m| *m < moment) as u64 + 1
}

/// The numbers of these moments.
pub(crate) fn numbers_of(
    alloc: Global,
    order: &[u128],
    moments: &[u128],
) -> Result<Vec<u64>, AllocError>
    requires rise { IsStrictlyIncreasing order.now }
    requires few { length order.now ≤ 202000 }
    ensures { IfOk result (λ v. v.items ≡ map (number_in order.now) moments.now) }
{
    let mut numbers = Vec::new(alloc);
    for moment in moments {
        numbers.push(number(order, *moment))?;
    }
    Ok(numbers)
}
