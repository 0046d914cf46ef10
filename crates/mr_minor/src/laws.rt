//! The laws of the definitions, each the contract of a function without a body.

ghost use Rattle.mr_minor.specs.Laws.{BasesDetermine, RanksAddUp, ThereIsOneDual, DualityIsSymmetric, MinorsHaveBasesByRank, ThereIsOneMinor, MinorsAreMadeInSteps, MinorsAreMadeInTheOtherOrder, MatroidsHaveDuals, MatroidsHaveMinors, MinorsOfDuals};

/// Numbers and sets are determined by their bases.
pub fn bases_determine()
    ensures { BasesDetermine }
{}

/// A matroid and its dual have as many elements as their ranks together.
pub fn ranks_add_up()
    ensures { RanksAddUp }
{}

/// A matroid has one dual.
pub fn there_is_one_dual()
    ensures { ThereIsOneDual }
{}

/// The dual of the dual is the matroid.
pub fn duality_is_symmetric()
    ensures { DualityIsSymmetric }
{}

/// A minor's bases are the sets of as many elements as its rank and of full rank, by the matroid's ranks.
pub fn minors_have_bases_by_rank()
    ensures { MinorsHaveBasesByRank }
{}

/// There is one minor by deleting and contracting given sets.
pub fn there_is_one_minor()
    ensures { ThereIsOneMinor }
{}

/// Deleting first and contracting then is the minor.
pub fn minors_are_made_in_steps()
    ensures { MinorsAreMadeInSteps }
{}

/// Contracting first and deleting then is the minor too.
pub fn minors_are_made_in_the_other_order()
    ensures { MinorsAreMadeInTheOtherOrder }
{}

/// Each matroid has a dual.
pub fn matroids_have_duals()
    ensures { MatroidsHaveDuals }
{}

/// Each matroid has each minor.
pub fn matroids_have_minors()
    ensures { MatroidsHaveMinors }
{}

/// A minor of the dual is the dual of the minor by which the elements that are deleted and those that are contracted change places.
pub fn minors_of_duals()
    ensures { MinorsOfDuals }
{}
