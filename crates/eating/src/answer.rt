//! The call that eats.

ghost use Rattle.std.specs.Prelude.{IfErr, IfOk};
ghost use Rattle.definitions.specs.Trees.{AreTreesOf};
ghost use Rattle.eating.specs.Answers.{IsEatFault, IsEaten, NeedsManyMoments};

use crate::eaten::Eaten;
use crate::eater::{Eater, TooFineTable};
use bihierarchy::Trees;
use quota_sets::Problem;
use std::alloc::{AllocError, Global};
use thiserror::Error;

/// Why nothing was eaten.
#[derive(Clone, Copy, Debug, PartialEq, Eq, Error)]
pub enum EatFault {
    /// The moments, taken in time order, have a common denominator above 2^116. This is the first such least common
    /// denominator, which is below 2^126.
    #[error("a denominator of {denominator} is above 2^116")]
    TooFine {
        /// The least common denominator of the moments up to the first at which it is above 2^116.
        denominator: u128,
    },
    /// Memory was refused.
    #[error("no memory to eat")]
    NoMemory,
}

impl From<AllocError> for EatFault {
    ghost use Rattle.std.specs.Prelude.{◌≡◌};
    ghost use Rattle.eating.specs.declared.answer.EatFault.TheVariants.{NoMemory};

    ghost from_gives = { λ _ e. e ≡ NoMemory };

    fn from(_: AllocError) -> EatFault {
        EatFault::NoMemory
    }
}

impl From<TooFineTable> for EatFault {
    ghost use Rattle.std.specs.Prelude.{◌≡◌};
    ghost use Rattle.eating.specs.declared.answer.EatFault.TheVariants.{TooFine};

    ghost from_gives = { λ fault e. e ≡ TooFine fault.denominator };

    fn from(fault: TooFineTable) -> EatFault {
        EatFault::TooFine {
            denominator: fault.denominator,
        }
    }
}

/// The eating table of a problem in lowest terms, with its assignment. The trees are those of the problem's family.
///
/// `TooFine` comes exactly where there is a first table up to a moment that is too fine: the moments up to it,
/// in time order, have a least common denominator above 2^116, and those before it one up to 2^116. Such a table
/// excludes an eating table with a denominator up to 2^116. Where all demands add up to n, and R distinct moments
/// before the end give an n^R up to 2^116, it doesn't come. `NoMemory` may come at any problem.
pub fn eat(alloc: Global, problem: &Problem, trees: &Trees) -> Result<Eaten, EatFault>
    requires { AreTreesOf problem.now.family trees.now }
    ensures eaten { IfOk result (IsEaten problem.now) }
    ensures refused { IfErr result (IsEatFault problem.now) }
    ensures bound { IfErr result (NeedsManyMoments problem.now) }
{
    let eater = Eater::new(alloc, problem, trees)?;
    Ok(eater.finish()?)
}
