//! The demands of agents, and the limit on all of them.

ghost use Rattle.std.specs.Prelude.{◌≡◌, ◌<◌, nat_le, slice_set, sum};
ghost use Rattle.alloc_input.specs.Checks.{Finds, need};
ghost use Rattle.alloc_input.specs.declared.faults.InputKind.TheVariants as kind;

use crate::faults::InputKind;
use crate::fields::need;
use crate::limits::MOST_DEMANDED;

/// States the demand of an agent, within the limit on all demands.
pub(crate) fn set_demand(demands: &mut Vec<u32>, agent: u32, demand: u32) -> Result<(), InputKind>
    ensures { Finds result (need (nat_le (sum (slice_set demands.old.items agent demand)) 1000) kind.OverLimit)
        (λ _. demands.new.items ≡ slice_set demands.old.items agent demand) }
{
    put(demands, agent, demand);
    need(adds_up_within(demands, MOST_DEMANDED), InputKind::OverLimit)
}

// Whether some numbers add up to no more than this.
fn adds_up_within(numbers: &[u32], most: u32) -> bool
    ensures { result ≡ nat_le (sum numbers.now) most }
{
    let mut left = most;
    for n in numbers {
        if *n > left {
            return false;
        }
        left -= *n;
    }
    true
}

fn put(demands: &mut [u32], agent: u32, demand: u32)
    ensures { demands.new ≡ slice_set demands.old agent demand }
{
    let at = agent as usize;
    if at < demands.len() {
        demands[at] = demand;
    }
}
