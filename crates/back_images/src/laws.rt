// The laws of images, as the contracts of functions that do nothing.

ghost use Rattle.back_images.specs.Laws.{LawOfImages, LawOfFirstStates, LawOfEmittedRuns};

/// The words of an image with its positions are words, and have all that a start asks for.
pub fn law_images()
    ensures { LawOfImages }
{}

/// The state with the words laid beside the code, and an empty heap behind the image, is one with which a run of the image begins.
pub fn law_first_states()
    ensures { LawOfFirstStates }
{}

/// The image of a program of middle code, with registers in places that fit it, does what the program means.
pub fn law_emitted_runs()
    ensures { LawOfEmittedRuns }
{}
