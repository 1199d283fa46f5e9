//! Laws on certified assignments, on the utility guard and on the recipe's numbers: each is the contract of a function that does
//! nothing.
//!
//! They speak of the definitions alone, of assignments over any denominators, and stand in `specs/`. Beside each,
//! `proofs/` has it as a lemma for proofs in other crates: `no_more_worth` (Duality), `more_worth` and `undominated`
//! (Dominance), `undominated_off_lists` (OffLists), `sums_near` (GuardBound), `guarded_apart` (GuardedSides),
//! `places_from_recipe` and `recipe_from_places` (RecipeWorths), `prices_are` and `same_recipe` (RecipePrices).
#![tactic(auto)]

mod recipe;

ghost use Rattle.certificate_laws.specs.Certified.{DualityBound, DominanceRaisesWorth, NoDominance, NoDominanceOffLists};
ghost use Rattle.certificate_laws.specs.Guarded.{GuardBound, GuardedIsBihierarchy};

pub use recipe::{one_recipe, prices_by_sets, worths_by_places};

/// No assignment is worth more than a certified one: if prices and worths certify a random assignment over `d`, then
/// every random assignment over any `e` has a sum of worth times share that is no greater. Shares are units over the
/// denominator, so each side is multiplied by the other's denominator.
pub fn duality_bound()
    ensures { DualityBound }
{}

/// Where worths fall strictly along each list, a random assignment that dominates another one is worth more, whatever
/// their denominators are.
pub fn dominance_raises_worth()
    ensures { DominanceRaisesWorth }
{}

/// No random assignment over any denominator dominates a certified one. Nor does a matrix that has the rows' sums and
/// keeps the limits, but has units off the lists, which count for nothing.
pub fn no_dominance()
    ensures assignments { NoDominance }
    ensures off_lists { NoDominanceOffLists }
{}

/// What the utility guard is for: for each agent and any whole numbers that fall strictly along its list, the sums of
/// number times count in two whole matrices that round one random assignment at every set of its guarded family differ
/// by at most the first minus the last number.
pub fn guard_bound()
    ensures { GuardBound }
{}

/// Where no two stated sets cross, no two sets of one side of the guarded family do: the sets that it adds to side 1 lie
/// within agents' rows, and those of one agent are nested.
pub fn guarded_is_bihierarchy()
    ensures { GuardedIsBihierarchy }
{}
