//! Laws on lotteries, whoever made them: each is the contract of a function without parameters that does nothing.
//!
//! The statements stand in `specs/`, over the words of the crate `definitions`. Beside each, `proofs/` has it as a lemma for
//! proofs in other crates: `sound_for_meets` and `solution_sound` (SoundLemmas), `pieces_near` (NearLemmas), `well_of`
//! (SplitsWellLemmas). What texts are read
//! or written isn't known here.
#![tactic(auto)]

ghost use Rattle.lottery_laws.specs.Near.{GuardedAreNear};
ghost use Rattle.lottery_laws.specs.Sound.{SolutionsAreSound, SoundMeetProblems};
ghost use Rattle.lottery_laws.specs.SplitsWell.{SplitsAreWell};

/// Where a lottery's shares are a random assignment of a problem that its prices and worths certify, and its pieces decompose
/// them: each piece keeps every ceiling and gives each agent exactly its demand; no random assignment dominates the shares, and
/// none is worth more at the worths; the named units of each cell are its units, and as many tickets give it, but for `none`
/// where the demand is 2 or more. So it is too where the pieces are for the problem's sets and others.
pub fn sound_meet_problems()
    ensures { SoundMeetProblems }
{}

/// A lottery that solves a problem is sound for it, for the family that its pieces are for.
pub fn solutions_are_sound()
    ensures { SolutionsAreSound }
{}

/// Where a lottery is sound and its pieces are for the guarded family: what any two pieces give an agent differs in worth, at
/// the lottery's own worths, by at most the first less the last worth of its list.
pub fn guarded_are_near()
    ensures { GuardedAreNear }
{}

/// Where a lottery splits shares that are feasible for a family, each piece meets every quota,
/// floors too, and the named units of each cell are its units. That the weighted sum of the pieces
/// is the shares, that no two pieces are equal, and that there is at most one more than cells and
/// sets that aren't whole, is what it means that the pieces decompose the shares.
pub fn splits_well()
    ensures { SplitsAreWell }
{}
