//! Laws on the places of a list, and on the moments at which they are full.

ghost use Rattle.eating_laws.specs.Places.{EatenByPlaces, FullFromTheEarliest, PrefixesAddUp, SharesByPlace};

/// A column is full for an agent from the earliest of the moments of the limits that hold the cell, or from the end.
pub fn full_from_the_earliest()
    ensures { FullFromTheEarliest }
{}

/// By any moment `t` an agent has eaten of a place of its list its demand times the time that it has eaten there, which is from
/// the moment at which the places before it are full to the moment at which it is full too. Of a set of cells all agents have
/// eaten the sum over the places whose cells the set holds.
pub fn eaten_by_places()
    ensures { EatenByPlaces }
{}

/// An agent's shares of the first columns of its list add up to its demand times the moment until which it eats of them.
pub fn prefixes_add_up()
    ensures { PrefixesAddUp }
{}

/// An agent's share of a column is its demand times the time at which it eats of it, and it has nothing of a column off its list.
pub fn shares_by_place()
    ensures { SharesByPlace }
{}
