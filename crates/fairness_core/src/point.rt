//! Where on its list an agent envies another.

ghost use Rattle.std.specs.Prelude.{◌≡◌, ◌<◌, length, MatchOption};
ghost use Rattle.definitions.specs.Sets.{units_of};
ghost use Rattle.definitions.specs.Values.{column_count};
ghost use Rattle.definitions.specs.Fairness.{Envies};
ghost use Rattle.fairness_core.specs.Envy.{first_envy, IsEnvyPoint};

use quota_sets::{Cell, Problem, Scaled};

/// The first place of an agent's list at which another has more of the columns up to it than the agent has.
#[derive(Clone, Copy, Debug, PartialEq, Eq)]
pub struct EnvyPoint {
    /// The place, from 1; at most the length of the list, which is at most 201.
    pub place: u32,
    /// The agent's own units of the columns up to the place, over the denominator of the matrix.
    pub own: u128,
    /// The other's units of the same columns, which are more.
    pub other: u128,
}

/// The first place of the list of `from` at which `to` has more units of the columns up to it than `from`, with both
/// sums; `None` exactly where `from` doesn't envy `to`. Agents count from 0, and the matrix has the problem's shape.
///
/// It goes once along the list, and takes no memory.
pub fn envy_point(problem: &Problem, x: &Scaled, from: u32, to: u32) -> Option<EnvyPoint>
    requires agents { x.now.agents ≡ length problem.now.agents }
    requires columns { x.now.columns ≡ column_count problem.now }
    requires from { from < length problem.now.agents }
    requires to { to < length problem.now.agents }
    ensures exact { result ≡ first_envy problem.now (units_of x.now) from to }
    ensures point { MatchOption result (Envies problem.now (units_of x.now) from to → ⊥)
        (IsEnvyPoint problem.now (units_of x.now) from to) }
{
    let list = problem.list(from);
    let mut own = 0;
    let mut other = 0;
    for place in 0..list.len() {
        let object = list[place];
        own += x.at(Cell {
            agent: from,
            object,
        });
        other += x.at(Cell { agent: to, object });
        if own < other {
            return Some(EnvyPoint {
                place: place as u32 + 1,
                own,
                other,
            });
        }
    }
    None
}
