//! Eating in two parts: what takes memory, and the rest. Only here a problem becomes lines and rests, and these what is
//! eaten; the steps between are those of `progress`.

ghost use Rattle.std.specs.Prelude.{◌≡◌, IfErr, IfOk, OnOk};
ghost use Rattle.definitions.specs.Eaters.{market_of_eater};
ghost use Rattle.definitions.specs.Trees.{AreTreesOf};
ghost use Rattle.definitions.specs.Values.{IsProblem};
ghost use Rattle.eating.specs.Answers.{IsTooFineIn};
ghost use Rattle.eating.specs.Eaters.{IsEatenOf, IsKept, kept_of};

use crate::eaten::Eaten;
use crate::plan::{Line, ceilings_of, lines_of, stated_copies};
use crate::progress::Progress;
use crate::serving::{serve, serve_caps};
use bihierarchy::Trees;
use frac128::Beyond;
use quota_sets::{Problem, QuotaSet, Scaled};
use std::alloc::{AllocError, Global};
use std::marker::Model;
use thiserror::Error;

/// All that eating needs, with all its memory. Contracts see what it keeps of its problem: how many agents and columns
/// there are, the lists, the stated sets and the demands. These meet all that a problem asks of them.
#[derive(Drop)]
pub struct Eater {
    columns: u32,
    stated: Vec<QuotaSet>,
    lines: Vec<Line>,
    progress: Progress,
    units: Vec<u128>,
    caps: Vec<u128>,
}

impl Model for Eater {
    ghost use Rattle.definitions.specs.Eaters.{EaterValue};
    ghost use Rattle.eating.specs.Made.{IsMade, eater_value};

    ghost Value = { EaterValue };

    ghost view = { λ e. eater_value e.columns e.stated.items e.lines.items };

    ghost invariant = { λ e. IsMade (eater_value e.columns e.stated.items e.lines.items)
        e.lines.items e.progress e.units.items e.caps.items };
}

/// The moments, taken in time order, have a common denominator above 2^116. This is the first such least common
/// denominator, which is below 2^126.
#[derive(Clone, Copy, Debug, PartialEq, Eq, Error)]
#[error("a denominator of {denominator} is above 2^116")]
pub struct TooFineTable {
    /// The least common denominator of the moments up to the first at which it is above 2^116.
    pub denominator: u128,
}

impl From<Beyond> for TooFineTable {
    ghost use Rattle.std.specs.Prelude.{◌≡◌};

    ghost from_gives = { λ beyond fault. fault.denominator ≡ beyond.lcm };

    fn from(beyond: Beyond) -> TooFineTable {
        TooFineTable {
            denominator: beyond.lcm,
        }
    }
}

impl Eater {
    /// What a problem's eating begins with. It takes all the memory that eating needs. The trees are those of the
    /// problem's family.
    pub fn new(alloc: Global, problem: &Problem, trees: &Trees) -> Result<Eater, AllocError>
        requires { AreTreesOf problem.now.family trees.now }
        ensures kept { IfOk result (λ eater. eater ≡ kept_of problem.now) }
        ensures lawful { OnOk result (IsProblem problem.now) }
    {
        let columns = problem.objects().len() + 1;
        let agents = problem.agents().len() as usize;
        let cells = agents * columns as usize;
        let stated = stated_copies(alloc, problem)?;
        let lines = lines_of(alloc, problem, trees)?;
        let ceilings = ceilings_of(alloc, problem)?;
        let progress = Progress::start(alloc, ceilings, agents)?;
        Ok(Eater {
            columns,
            stated,
            lines,
            progress,
            units: vec![in alloc; 0; cells]?,
            caps: vec![in alloc; 0; cells]?,
        })
    }

    /// Eats to the end. It takes no memory. The answer is the eating table in lowest terms; or, where there is a first
    /// table up to a moment that is too fine, its denominator.
    pub fn finish(self) -> Result<Eaten, TooFineTable>
        ensures eaten { IfOk result (IsEatenOf self) }
        ensures too_fine { IfErr result (λ fault.
            IsTooFineIn (market_of_eater self) fault.denominator) }
        ensures lawful { IsKept self }
    {
        let Eater {
            columns,
            stated,
            lines,
            mut progress,
            mut units,
            mut caps,
        } = self;
        let sets = stated.len();
        progress.eat(&lines)?;
        let Progress {
            unit,
            mut moments,
            ..
        } = progress;
        serve(&lines, &moments, unit, columns as usize, &mut units);
        serve_caps(&lines, &moments, unit, sets, columns as usize, &mut caps);
        moments.truncate(sets);
        Ok(Eaten::new(
            moments,
            Scaled::new(unit, lines.len() as u32, columns, units),
            caps,
        ))
    }
}
