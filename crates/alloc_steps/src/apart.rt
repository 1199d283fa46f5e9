// The trees of a family that is known to have them.
ghost use Rattle.std.specs.Prelude.{IfOk};
ghost use Rattle.definitions.specs.Sets.{IsBihierarchy, IsFamily};
ghost use Rattle.definitions.specs.Trees.{AreTreesOf};

use bihierarchy::{Trees, TreesFault};
use quota_sets::{Family, NoMemory};
use std::alloc::Global;

/// The trees of a family of which no two sets of one side cross.
pub(crate) fn trees_apart(alloc: Global, family: &Family) -> Result<Trees, NoMemory>
    requires lawful { IsFamily family.now }
    requires apart { IsBihierarchy family.now }
    ensures { IfOk result (AreTreesOf family.now) }
{
    match Trees::of(alloc, family) {
        Ok(trees) => Ok(trees),
        Err(TreesFault::NoMemory) => Err(NoMemory),
        Err(TreesFault::Crossing { .. }) => unreachable!(),
    }
}
