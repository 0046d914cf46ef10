//! The laws of the definitions, each the contract of a function without a body.

ghost use Rattle.mr_set.specs.Laws.{SetHasOnePlace, PlaceHasOneSet, SetsCanBeListed, SetsAreCounted, FirstSetStandsFirst, NextSetStandsNext, FirstBasisIsUnique, RankIsUnique};

/// A set stands at no more than one place among the sets of its size.
pub fn set_has_one_place()
    ensures { SetHasOnePlace }
{}

/// At most one set of each size stands at a place.
pub fn place_has_one_set()
    ensures { PlaceHasOneSet }
{}

/// The sets of one size can be listed in order.
pub fn sets_can_be_listed()
    ensures { SetsCanBeListed }
{}

/// There are as many sets of one size as Pascal's triangle says.
pub fn sets_are_counted()
    ensures { SetsAreCounted }
{}

/// The first set of its size stands at place 0.
pub fn first_set_stands_first()
    ensures { FirstSetStandsFirst }
{}

/// The next set stands at the next place.
pub fn next_set_stands_next()
    ensures { NextSetStandsNext }
{}

/// A matroid has at most one first basis.
pub fn first_basis_is_unique()
    ensures { FirstBasisIsUnique }
{}

/// A set has at most one rank.
pub fn rank_is_unique()
    ensures { RankIsUnique }
{}
