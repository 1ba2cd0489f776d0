// The laws of images that are made, as the contracts of functions that do nothing.

ghost use Rattle.back_program_code.specs.ShapedImage.{LawOfShapedImage};
ghost use Rattle.back_program_code.specs.Made.{LawOfFirstOfImage, LawOfRunsOfImage};

/// The words that are made from the shapes of procedures are those of the program's image.
pub fn law_shaped_image()
    ensures { LawOfShapedImage }
{}

/// The state with the words laid beside the code, and an empty heap behind the image, is one with which a run of the image begins.
pub fn law_first_of_image()
    ensures { LawOfFirstOfImage }
{}

/// The image of a program does what the program means: all that was printed, all ends, no more instructions than it costs, and no trap.
pub fn law_runs_of_image()
    ensures { LawOfRunsOfImage }
{}
