//! All envy in a matrix.

ghost use Rattle.std.specs.Prelude.{◌≡◌, ◌<◌, ◌++◌, length, IfOk, OnOk, All};
ghost use Rattle.std.specs.List.{filter_map, range_with_len};
ghost use Rattle.definitions.specs.Sets.{units_of};
ghost use Rattle.definitions.specs.Values.{column_count};
ghost use Rattle.eating.specs.Answers.{IsEaten};
ghost use Rattle.fairness_core.specs.Envy.{envies_of, all_envies, IsEnvy, IsTableAssignment, NoneAlike};

use crate::point::{EnvyPoint, envy_point};
use eating::Eaten;
use quota_sets::{Problem, Scaled};
use std::alloc::{AllocError, Global};

/// One agent's envy of another.
#[derive(Clone, Copy, Debug, PartialEq, Eq)]
pub struct Envy {
    /// The agent who envies, from 0.
    pub from: u32,
    /// The agent who is envied, from 0.
    pub to: u32,
    /// Where on the list of `from`, with both sums.
    pub point: EnvyPoint,
}

/// Who envies whom: an entry for each pair of agents of whom one envies the other.
#[derive(Debug, Drop)]
pub struct EnvyList {
    /// The entries, by `from` and then `to`.
    pub list: Vec<Envy>,
}

/// Why there is no list.
#[derive(Clone, Copy, Debug, PartialEq, Eq)]
pub enum FairFault {
    /// Memory was refused.
    NoMemory,
}

impl From<AllocError> for FairFault {
    fn from(_: AllocError) -> FairFault {
        FairFault::NoMemory
    }
}

// Adds whom an agent envies, in order.
fn add_envies(
    problem: &Problem,
    x: &Scaled,
    from: u32,
    list: &mut Vec<Envy>,
) -> Result<(), AllocError>
    requires agents { x.now.agents ≡ length problem.now.agents }
    requires columns { x.now.columns ≡ column_count problem.now }
    requires from { from < length problem.now.agents }
    ensures { OnOk result (list.new.items
        ≡ list.old.items ++ envies_of problem.now (units_of x.now) from) }
{
    for to in 0..problem.agents().len() {
        if let Some(point) = envy_point(problem, x, from, to) {
            list.push(Envy { from, to, point })?;
        }
    }
    Ok(())
}

/// All pairs of which the first agent envies the second, by the first and then the second. The matrix has the problem's
/// shape. `NoMemory` may come at any matrix.
///
/// Where the matrix is the assignment of a table of the problem, as eating makes it, no entry names two who are alike.
pub fn envy_list(alloc: Global, problem: &Problem, x: &Scaled) -> Result<EnvyList, FairFault>
    requires agents { x.now.agents ≡ length problem.now.agents }
    requires columns { x.now.columns ≡ column_count problem.now }
    ensures exact { IfOk result (λ l. l.list.items ≡ all_envies problem.now (units_of x.now)) }
    ensures each { IfOk result (λ l. All (IsEnvy problem.now (units_of x.now)) l.list.items) }
    ensures none_alike { IfOk result (λ l. IsTableAssignment problem.now x.now
        → NoneAlike problem.now l.list.items) }
{
    let mut list = Vec::new(alloc);
    for from in 0..problem.agents().len() {
        add_envies(problem, x, from, &mut list)?;
    }
    Ok(EnvyList { list })
}

/// `envy_list` of the shares of a problem's eating table: no entry names two agents who are alike. `NoMemory` may come at
/// any table.
pub fn eaten_envy(alloc: Global, problem: &Problem, eaten: &Eaten) -> Result<EnvyList, FairFault>
    requires { IsEaten problem.now eaten.now }
    ensures exact { IfOk result (λ l. l.list.items
        ≡ all_envies problem.now (units_of eaten.now.shares)) }
    ensures each { IfOk result (λ l. All (IsEnvy problem.now (units_of eaten.now.shares))
        l.list.items) }
    ensures none_alike { IfOk result (λ l. NoneAlike problem.now l.list.items) }
{
    envy_list(alloc, problem, eaten.shares())
}
