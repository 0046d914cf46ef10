//! The laws of solves, each the contract of a function without a body.

ghost use Rattle.matrep.specs.Laws.{WrittenLogsAreAccepted, EnoughNodesSuffice, PowersSuffice, MatroidsHaveNeeds};

/// A log that `solve` writes is accepted by `check`, which allows no other exit and text for it.
pub fn written_logs_are_accepted()
    ensures { WrittenLogsAreAccepted }
{}

/// A solve whose budget is no smaller than the matroid's need isn't stopped; nor is one whose budget is no smaller than
/// what the powers of the number of nonzero elements add up to, from the depth of the split to the number of free positions.
pub fn enough_nodes_suffice()
    ensures need { EnoughNodesSuffice }
    ensures powers { PowersSuffice }
{}

/// Each matroid within the limits has both numbers over each field, and its need is at most the other.
pub fn matroids_have_needs()
    ensures { MatroidsHaveNeeds }
{}
