//! The law of packings, the contract of a function without a body.

ghost use Rattle.mr_assign.specs.Laws.{MapsComeBack};

/// A map comes back from its words.
pub fn maps_come_back()
    ensures { MapsComeBack }
{}
