//! The laws of the images of forms and of orbits, each the contract of a function without a body.

ghost use Rattle.mr_auto.specs.Laws.{ImagesAreForms, ImagesFillImages, OrbitsOfFormsAreOrbitsOfMatrices, OneListOfOrbits};

/// The images of a form are forms.
pub fn images_are_forms()
    ensures { ImagesAreForms }
{}

/// The image of an assignment fills the image of its matrix.
pub fn images_fill_images()
    ensures { ImagesFillImages }
{}

/// The orbits of all forms are, by their matrices, the orbits of the answer.
pub fn orbits_of_forms_are_orbits_of_matrices()
    ensures { OrbitsOfFormsAreOrbitsOfMatrices }
{}

/// Forms have one list of orbits.
pub fn there_is_one_list_of_orbits()
    ensures { OneListOfOrbits }
{}
