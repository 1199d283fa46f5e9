//! Laws on audits: each is the contract of a function that does nothing.

ghost use Rattle.alloc_audits.specs.Laws.{SolutionsPass, SoundPass, SplitsPass};

/// No check of `audit` fails exactly where the lottery is sound for the problem.
pub fn sound_pass()
    ensures { SoundPass }
{}

/// No check of `audit` fails for a lottery that solves the problem.
pub fn solutions_pass()
    ensures { SolutionsPass }
{}

/// No check of `audit-matrix` fails for a lottery that splits the shares.
pub fn splits_pass()
    ensures { SplitsPass }
{}
