//! What becomes of an accepted input, as the contract of a function without a body.

ghost use Rattle.matrep.specs.Laws.{SolvesEnd, ChecksEnd, ConfirmationsEnd, MatroidsEnd, DualsEnd, MinorsEnd, PlanesEnd};

/// Each exit that is allowed for an accepted input is done or negative, as the input decides, unless a search is stopped.
pub fn accepted_inputs_have_their_ends()
    ensures solve { SolvesEnd }
    ensures check { ChecksEnd }
    ensures confirm { ConfirmationsEnd }
    ensures matroid { MatroidsEnd }
    ensures dual { DualsEnd }
    ensures minor { MinorsEnd }
    ensures plane { PlanesEnd }
{}
