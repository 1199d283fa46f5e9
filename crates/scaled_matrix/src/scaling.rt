//! The least common denominator of given shares, and the shares in units over it. Shares come as fractions in lowest
//! terms: nothing here reads a text or reduces a fraction.

ghost use Rattle.std.specs.Prelude.{◌≡◌, ◌↔◌, ◌*◌, ◌^◌, ◌<◌, ◌≤◌, length, sum, IsTrue, IfOk, IfErr};
ghost use Rattle.std.specs.Int.{◌∣◌};
ghost use Rattle.frac128.specs.Fraction.{numerator, denominator as denominator_of};
ghost use Rattle.definitions.specs.Scaling.{IsLeastCommonDenominator, IsScaled};
ghost use Rattle.definitions.specs.Sets.{IsScaledMatrix};
ghost use Rattle.scaled_matrix.specs.Entries.{IsShares, ratio_of};
ghost use Rattle.scaled_matrix.specs.Scaling.{IsEntryOf, IsScaleFault, unit_of, units_in};

use crate::shares::Shares;
use frac128::{Fraction, lcm_within};
use quota_sets::Scaled;
use std::alloc::{AllocError, AllocFailed, Global};
use thiserror::Error;

/// The greatest denominator.
const FINEST: u128 = 1 << 116;

/// The greatest sum of all shares.
const MOST: u128 = 1000;

/// Why shares were not scaled. Agents and columns count from 1.
#[derive(Clone, Copy, Debug, PartialEq, Eq, Error)]
pub enum ScaleFault {
    /// The least common denominator passes 2^116.
    #[error("the denominators have no common multiple up to 2^116: {denominator} at agent {agent}, column {column}")]
    TooFine {
        /// What it is with the entry at which it passes, or the greatest `u128` where it is larger.
        denominator: u128,
        /// The agent of the first entry at which it passes, row by row.
        agent: u32,
        /// The column of that entry.
        column: u32,
    },
    /// The shares add up to more than 1,000.
    #[error("the shares pass 1,000 at agent {agent}, column {column}")]
    OverTotal {
        /// The agent of the first entry at which the sum so far passes 1,000, row by row.
        agent: u32,
        /// The column of that entry.
        column: u32,
    },
    /// Memory was refused.
    #[error("no memory to scale the shares")]
    NoMemory,
}

impl From<AllocError> for ScaleFault {
    ghost use Rattle.std.specs.Prelude.{◌≡◌};
    ghost use Rattle.scaled_matrix.specs.declared.scaling.ScaleFault.TheVariants.{NoMemory};

    ghost from_gives = { λ _ e. e ≡ NoMemory };

    fn from(_: AllocError) -> ScaleFault {
        ScaleFault::NoMemory
    }
}

impl<T: Drop> From<AllocFailed<T>> for ScaleFault {
    ghost use Rattle.std.specs.Prelude.{◌≡◌};
    ghost use Rattle.scaled_matrix.specs.declared.scaling.ScaleFault.TheVariants.{NoMemory};

    ghost from_gives = { λ _ e. e ≡ NoMemory };

    fn from(_: AllocFailed<T>) -> ScaleFault {
        ScaleFault::NoMemory
    }
}

/// The shares in units over their least common denominator. Where that denominator passes 2^116 they are refused as
/// `TooFine`; where it does not and the shares add up to more than 1,000, as `OverTotal`. `NoMemory` may come at any
/// shares. There is one answer at most besides `NoMemory`.
pub fn scale(alloc: Global, shares: &Shares) -> Result<Scaled, ScaleFault>
    ensures scaled { IfOk result (IsScaled shares.now) }
    ensures lawful { IfOk result IsScaledMatrix }
    ensures refused { IfErr result (IsScaleFault shares.now) }
    ensures given { IsShares shares.now }
{
    let agents = shares.agents().len();
    let columns = shares.objects().len();
    let denominator = common_denominator(shares)?;
    let units = units_over(alloc, shares, denominator)?;
    Ok(Scaled::new(denominator, agents, columns, units))
}

/// The least common denominator of all entries. A fault of `lcm_within` gets the place of the entry.
fn common_denominator(shares: &Shares) -> Result<u128, ScaleFault>
    requires { length shares.now.agents < 2 ^ 32 }
    ensures least { IfOk result (IsLeastCommonDenominator shares.now.entries) }
    ensures fits { IfOk result (λ d. d ≤ 2 ^ 116) }
    ensures refused { IfErr result (IsScaleFault shares.now) }
{
    let entries = shares.entries();
    let mut multiple = 1;
    for (index, share) in entries.iter().enumerate() {
        match lcm_within(multiple, share.den(), FINEST) {
            Ok(next) => multiple = next,
            Err(beyond) => {
                let (agent, column) = place_of(shares, index);
                return Err(ScaleFault::TooFine {
                    denominator: beyond.lcm,
                    agent,
                    column,
                });
            }
        }
    }
    Ok(multiple)
}

/// Each entry in units of which `denominator` make one, where all together are at most 1,000.
fn units_over(alloc: Global, shares: &Shares, denominator: u128) -> Result<Vec<u128>, ScaleFault>
    requires least { IsLeastCommonDenominator shares.now.entries denominator }
    requires fits { denominator ≤ 2 ^ 116 }
    requires few { length shares.now.agents < 2 ^ 32 }
    ensures units { IfOk result
        (λ units. units.items ≡ units_in denominator shares.now.entries) }
    ensures total { IfOk result (λ units. sum units.items ≤ 1000 * denominator) }
    ensures refused { IfErr result (IsScaleFault shares.now) }
{
    let entries = shares.entries();
    let mut units = Vec::with_capacity(alloc, entries.len())?;
    let mut total = 0;
    for (index, share) in entries.iter().enumerate() {
        let unit = unit_count(*share, denominator);
        total += unit;
        if is_over_total(total, denominator) {
            let (agent, column) = place_of(shares, index);
            return Err(ScaleFault::OverTotal { agent, column });
        }
        units.push(unit)?;
    }
    Ok(units)
}

/// Whether units of which `denominator` make one are more than 1,000 in all.
fn is_over_total(units: u128, denominator: u128) -> bool
    requires { denominator ≤ 2 ^ 116 }
    ensures { IsTrue result ↔ (1000 * denominator < units) }
{
    units > MOST * denominator
}

/// How many units a share is, of which `denominator` make one. The quotient comes first, so that no product wraps.
fn unit_count(share: Fraction, denominator: u128) -> u128
    requires limit { numerator share ≤ 1000 * denominator_of share }
    requires divides { denominator_of share ∣ denominator }
    requires fits { denominator ≤ 2 ^ 116 }
    ensures value { result ≡ unit_of denominator (ratio_of share) }
    ensures bound { result ≤ 1000 * denominator }
{
    share.num() * (denominator / share.den())
}

/// The agent and the column of an entry. Entries count from 0, and these from 1.
fn place_of(shares: &Shares, index: usize) -> (u32, u32)
    requires known { index < length shares.now.entries }
    requires few { length shares.now.agents < 2 ^ 32 }
    ensures { IsEntryOf shares.now index result.0 result.1 }
{
    let columns = shares.objects().len() as usize;
    ((index / columns + 1) as u32, (index % columns + 1) as u32)
}
