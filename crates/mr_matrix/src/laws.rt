//! The laws of the definitions, each the contract of a function without a body.

ghost use Rattle.mr_matrix.specs.Laws.{NoDifferenceIsEnough, RepresentationsDoNotDiffer, MatricesRepresentTheirMatroids, MatricesHaveMatroids, OneMatroid, OneConfirmation, OnePlane, PlanesHaveFullRank, OneBlock, OneMatrixRefusal, BlocksAreNotRefused, OnePair, PairsAreNotRefused};

/// A matrix that differs from a matroid at no set of the rank's size represents it.
pub fn no_difference_is_enough()
    ensures { NoDifferenceIsEnough }
{}

/// A matrix that represents a matroid differs from it at no set of the rank's size.
pub fn representations_do_not_differ()
    ensures { RepresentationsDoNotDiffer }
{}

/// A matrix represents its matroid.
pub fn matrices_represent_their_matroids()
    ensures { MatricesRepresentTheirMatroids }
{}

/// A matrix whose rank is its number of rows has a matroid.
pub fn matrices_have_matroids()
    ensures { MatricesHaveMatroids }
{}

/// A matrix has at most one matroid.
pub fn there_is_one_matroid()
    ensures { OneMatroid }
{}

/// A matrix represents a matroid, or there is one set at which they first differ.
pub fn there_is_one_confirmation()
    ensures { OneConfirmation }
{}

/// A field has one plane.
pub fn there_is_one_plane()
    ensures { OnePlane }
{}

/// The rank of a plane's matrix is its number of rows, three.
pub fn planes_have_full_rank()
    ensures { PlanesHaveFullRank }
{}

/// A text is the block of at most one matrix.
pub fn there_is_one_block()
    ensures { OneBlock }
{}

/// A text is refused for at most one cause.
pub fn there_is_one_refusal()
    ensures { OneMatrixRefusal }
{}

/// A block has no fault.
pub fn blocks_are_not_refused()
    ensures { BlocksAreNotRefused }
{}

/// A text is that of at most one pair.
pub fn there_is_one_pair()
    ensures { OnePair }
{}

/// The text of a pair has no fault.
pub fn pairs_are_not_refused()
    ensures { PairsAreNotRefused }
{}
