//! The laws of the classes, each the contract of a function without a body.

ghost use Rattle.mr_class.specs.Laws.{EachRepresentationHasOneForm, FormsAreMembers, MembersComeFromOneForm, FormsAreInOrder, EachClassHasOneChosen, ChosenMatricesHaveOnes, AnswersHaveOneOfEachClass, EmptyAnswersMeanNoRepresentation, MatroidsHaveAnswers, MatroidsHaveFrames};

/// Every representation is equivalent to the matrix of exactly one form (Oxley, Theorem 6.4.7).
pub fn each_representation_has_one_form()
    ensures { EachRepresentationHasOneForm }
{}

/// The matrix of a form is the least standard matrix of its class, and a representation.
pub fn forms_are_members()
    ensures { FormsAreMembers }
{}

/// Each member of the answer is the matrix of just one form.
pub fn members_come_from_one_form()
    ensures { MembersComeFromOneForm }
{}

/// Forms are in the order of their matrices.
pub fn forms_are_in_order()
    ensures { FormsAreInOrder }
{}

/// Every representation is equivalent to exactly one chosen matrix.
pub fn each_class_has_one_chosen()
    ensures { EachClassHasOneChosen }
{}

/// A standard representation is the chosen one exactly where it has ones on the first forest.
pub fn chosen_matrices_have_ones()
    ensures { ChosenMatricesHaveOnes }
{}

/// Each representation over a field is equivalent to exactly one matrix of the answer, which is empty exactly where
/// no matrix over the field represents the matroid.
pub fn answers_have_one_of_each_class()
    ensures each { AnswersHaveOneOfEachClass }
    ensures empty { EmptyAnswersMeanNoRepresentation }
{}

/// Every matroid has an answer over every field, whatever its size.
pub fn matroids_have_answers()
    ensures { MatroidsHaveAnswers }
{}

/// Every matroid within the limits has a frame over every field.
pub fn matroids_have_frames()
    ensures { MatroidsHaveFrames }
{}
