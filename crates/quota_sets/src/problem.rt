//! Problems: agents with demands and lists of objects, and the sets that bound what they get.

ghost use Rattle.std.specs.Prelude.{◌≡◌, ◌<◌, ◌++◌, List, length, map, replicate, IfOk};
ghost use Rattle.definitions.specs.Values.{IsProblem, list_at, demand_at};
ghost use Rattle.quota_sets.specs.Parts.{AreProblemParts, AreDemands, problem_from};

use crate::family::Family;
use crate::name_list::Names;
use crate::rows;
use std::alloc::{AllocError, Global};
use std::marker::Model;

/// Agents with their demands and lists, objects, and a family of sets.
///
/// There are 1 to 1,000 agents and at most 200 objects. Columns count from 0: those of the objects
/// in order, and last that of `none`. An agent's list has distinct columns, with that of `none`
/// last. Each demand is at least 1, and together they are at most 1,000. The family has the stated
/// sets, numbered from 1, and then a set for each agent's row, of side 1, over all columns, with
/// the agent's demand as floor and ceiling. The stated sets are of side 2 with floor 0 and no cell
/// of `none`, and each object has one that holds its whole column.
#[derive(Debug, Drop)]
pub struct Problem {
    agents: Names,
    objects: Names,
    lists: Vec<Vec<u32>>,
    demands: Vec<u32>,
    family: Family,
    stated: u32,
}

impl Model for Problem {
    ghost use Rattle.std.specs.Prelude.{map};
    ghost use Rattle.definitions.specs.Values.{ProblemValue, IsProblem};

    ghost Value = { ProblemValue };

    ghost view = { λ p. record {
      agents = p.agents;
      objects = p.objects;
      lists = map (λ list. list.items) p.lists.items;
      demands = p.demands.items;
      family = p.family;
      stated = p.stated;
    } };

    ghost invariant = { λ p. IsProblem (record {
      agents = p.agents;
      objects = p.objects;
      lists = map (λ list. list.items) p.lists.items;
      demands = p.demands.items;
      family = p.family;
      stated = p.stated;
    }) };
}

/// Why no problem was made.
#[derive(Clone, Copy, Debug, PartialEq, Eq)]
pub enum ProblemFault {
    /// Memory was refused.
    NoMemory,
}

impl From<AllocError> for ProblemFault {
    fn from(_: AllocError) -> ProblemFault {
        ProblemFault::NoMemory
    }
}

impl Problem {
    /// The problem in which each agent's demand is 1. The sets of `stated` are the stated sets; the
    /// agents' rows are added.
    pub fn new(
        alloc: Global,
        agents: Names,
        objects: Names,
        lists: Vec<Vec<u32>>,
        stated: Family,
    ) -> Result<Problem, ProblemFault>
        requires { AreProblemParts agents objects (map (λ list. list.items) lists.items) stated }
        ensures { IfOk result (λ p. p
            ≡ problem_from agents objects (map (λ list. list.items) lists.items)
            (replicate (length agents) 1) stated) }
    {
        let demands = vec![in alloc; 1; agents.len() as usize]?;
        Problem::with_demands(alloc, agents, objects, lists, demands, stated)
    }

    /// The problem in which each agent has its demand of `demands`. The sets of `stated` are the
    /// stated sets; the agents' rows are added.
    pub fn with_demands(
        alloc: Global,
        agents: Names,
        objects: Names,
        lists: Vec<Vec<u32>>,
        demands: Vec<u32>,
        stated: Family,
    ) -> Result<Problem, ProblemFault>
        requires parts { AreProblemParts agents objects
            (map (λ list. list.items) lists.items) stated }
        requires demands { AreDemands (length agents) demands.items }
        ensures { IfOk result (λ p. p
            ≡ problem_from agents objects (map (λ list. list.items) lists.items)
            demands.items stated) }
    {
        let stated_count = stated.len();
        let mut family = stated;
        rows::add_rows(
            alloc,
            &mut family,
            agents.len(),
            objects.len() + 1,
            &demands,
        )?;
        Ok(Problem {
            agents,
            objects,
            lists,
            demands,
            family,
            stated: stated_count,
        })
    }

    /// The agents' names in order.
    pub fn agents(&self) -> &Names
        ensures value { result.now ≡ self.now.agents }
        ensures lawful { IsProblem self.now }
    {
        &self.agents
    }

    /// The objects' names in order. `none` is not among them.
    pub fn objects(&self) -> &Names
        ensures value { result.now ≡ self.now.objects }
        ensures lawful { IsProblem self.now }
    {
        &self.objects
    }

    /// The columns on an agent's list, best first. Agents count from 0.
    pub fn list(&self, agent: u32) -> &[u32]
        requires { agent < length self.now.agents }
        ensures value { result.now ≡ list_at self.now agent }
        ensures lawful { IsProblem self.now }
    {
        let lists = &self.lists;
        &lists[agent as usize]
    }

    /// An agent's demand. Agents count from 0.
    pub fn demand(&self, agent: u32) -> u32
        requires { agent < length self.now.agents }
        ensures value { result ≡ demand_at self.now agent }
        ensures lawful { IsProblem self.now }
    {
        self.demands[agent as usize]
    }

    /// The stated sets and then the agents' rows.
    pub fn family(&self) -> &Family
        ensures value { result.now ≡ self.now.family }
        ensures lawful { IsProblem self.now }
    {
        &self.family
    }

    /// The number of stated sets, which are the first sets of the family.
    pub fn stated(&self) -> u32
        ensures value { result ≡ self.now.stated }
        ensures lawful { IsProblem self.now }
    {
        self.stated
    }
}
