//! Laws on the recipe's numbers, which may know what is eaten and which sets are above a set, and name no table of parents but
//! that some are taken.

ghost use Rattle.certificate_laws.specs.Recipe.{OneRecipe, PricesBySets, WorthsByPlaces};

/// The recipe's worths, place by place: an eaten place has the width times `R + 1 - N`, where `R` distinct moments are before the
/// end and the place is full from the `N`th on; a place before an eaten one has the worth of the next eaten place plus the
/// distance to it; after the last eaten place the worth falls by 1 from place to place. No other worths are so.
pub fn worths_by_places()
    ensures { WorthsByPlaces }
{}

/// The recipe's prices, set by set: the width times what the least number of the sets above a set is above the least of these
/// and its own.
pub fn prices_by_sets()
    ensures { PricesBySets }
{}

/// The recipe's numbers are one for a problem and its table, whatever tables of parents are taken.
pub fn one_recipe()
    ensures { OneRecipe }
{}
