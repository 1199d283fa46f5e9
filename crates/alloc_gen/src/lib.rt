//! A problem made from a seed.
//!
//! `make(seed, n, m)` has agents `p1` to `pn` and objects `s1` to `sm`. Words are those of the
//! ChaCha20 stream 0 with the seed as key, from word 0 on, each used once. For each agent in order:
//! start with s1 to sm in order. For j from 1 to min(m, 5): take the next word w and exchange the
//! entries at places j and j + (w mod (m − j + 1)). The list is the first min(m, 5) entries and
//! `none`. Let q be n / m rounded up. Sets 1 to m are the columns with ceiling q. Set m + k holds
//! the cells of s_k with the agents p1, p3, p5 and so on, and has the ceiling max(1, q / 2 rounded
//! down). All have side 2 and floor 0. Each demand is 1. (At 1,000 agents and 200 objects these are
//! 400 sets with 300,000 cells, so the limits hold.)
//!
//! ```text
//! let problem = make(alloc, [0; 32], 4, 3)?;
//! assert_eq!(rt; problem.agents().name_at(3), "p4");
//! assert_eq!(rt; problem.objects().name_at(0), "s1");
//! assert_eq!(rt; problem.stated(), 6);
//! ```
#![tactic(auto)]

ghost use Rattle.std.specs.Prelude.{◌≡◌, ◌↔◌, Err, IfOk};
ghost use Rattle.definitions.specs.Sets.{IsBihierarchy};
ghost use Rattle.alloc_gen.specs.Limits.{IsOutside};
ghost use Rattle.alloc_gen.specs.Made.{made_problem};
ghost use Rattle.alloc_gen.specs.Words.{seed_words};

mod choices;
mod numbering;
mod sets;

use choices::make_lists;
use numbering::make_names;
use quota_sets::{Problem, ProblemFault};
use sets::make_sets;
use std::alloc::{AllocError, Global};

/// The most agents that a made problem may have.
const MOST_AGENTS: u32 = 1000;

/// The most objects that a made problem may have.
const MOST_OBJECTS: u32 = 200;

/// Why no problem is made.
#[derive(Clone, Copy, Debug, PartialEq, Eq)]
pub enum GenFault {
    /// There are not 1 to 1,000 agents, or not 1 to 200 objects.
    OverLimit,
    /// Memory is refused.
    NoMemory,
}

impl From<AllocError> for GenFault {
    ghost use Rattle.std.specs.Prelude.{◌≡◌};
    ghost use Rattle.alloc_gen.specs.declared.GenFault.TheVariants.{NoMemory};

    ghost from_gives = { λ _ e. e ≡ NoMemory };

    fn from(_: AllocError) -> GenFault {
        GenFault::NoMemory
    }
}

impl From<ProblemFault> for GenFault {
    ghost use Rattle.std.specs.Prelude.{◌≡◌};
    ghost use Rattle.alloc_gen.specs.declared.GenFault.TheVariants.{NoMemory};

    ghost from_gives = { λ _ e. e ≡ NoMemory };

    fn from(_: ProblemFault) -> GenFault {
        GenFault::NoMemory
    }
}

/// The problem of so many agents and objects that the seed stands for, by the rule at the head of
/// the crate. `OverLimit` comes before any memory is asked for.
pub fn make(alloc: Global, seed: [u8; 32], agents: u32, objects: u32) -> Result<Problem, GenFault>
    ensures made { IfOk result (λ p. p ≡ made_problem (seed_words seed) agents objects) }
    ensures over { (result ≡ Err GenFault.OverLimit) ↔ IsOutside agents objects }
    ensures apart { IfOk result (λ p. IsBihierarchy p.family) }
{
    if agents == 0 || agents > MOST_AGENTS || objects == 0 || objects > MOST_OBJECTS {
        return Err(GenFault::OverLimit);
    }
    let agent_names = make_names(alloc, "p", agents)?;
    let object_names = make_names(alloc, "s", objects)?;
    let lists = make_lists(alloc, seed, agents, objects)?;
    let stated = make_sets(alloc, agents, objects)?;
    let problem = Problem::new(alloc, agent_names, object_names, lists, stated)?;
    Ok(problem)
}
