// The laws of images of whole programs, as the contracts of functions that do nothing.

ghost use Rattle.back_build.specs.Laws.{LawOfWholeMeaning};
ghost use Rattle.back_build.specs.Compiled.{LawOfCompiled, LawOfBuilt, LawOfBuiltSize, LawOfLeft};
ghost use Rattle.back_build.specs.WordsLeft.{LawOfWordsLeft};
ghost use Rattle.back_build.specs.Values.{LawOfValuesLeft};

use back_images::law_images;
use back_layout::law_placed_laid_out;
use back_levels::laws::{law_lowering, law_right_programs};
use back_meant::law_meant_runs;
use back_program_code::law_first_of_image;
use back_words::laws::{law_beginnings, law_whole_programs};
use flat_language::laws::{law_closures, law_flat_programs};
use flat_stores::laws::law_stores;

/// An image that does what a flat program means does what the whole program means that was made flat.
pub fn law_whole_meaning()
    ensures { LawOfWholeMeaning }
{
    law_closures();
    law_stores();
}

/// The image of a whole program that was made flat and lowered does what the program means, whatever was decided of places, where it was
/// decided well.
pub fn law_compiled()
    ensures { LawOfCompiled }
{
    law_flat_programs();
    law_whole_programs();
    law_right_programs();
    law_beginnings();
    law_lowering();
    law_meant_runs();
    law_whole_meaning();
}

/// An image that was made of the code of a whole program does what the program means.
pub fn law_built()
    ensures { LawOfBuilt }
{
    law_placed_laid_out();
    law_images();
    law_first_of_image();
    law_compiled();
}

/// An image that was made of the code of a whole program has at most so many words, by the nodes of the program.
pub fn law_built_size()
    ensures { LawOfBuiltSize }
{
    law_flat_programs();
}

/// An image of the program that keeps what is reached does what the whole program means.
pub fn law_left()
    ensures { LawOfLeft }
{}

/// The words of the machine's memory are, at each address that is lent, those of the arena with which a run ended.
pub fn law_words_left()
    ensures { LawOfWordsLeft }
{}

/// Where a run of an image that was built has halted, its word is taken for the value of the program.
pub fn law_values_left()
    ensures { LawOfValuesLeft }
{}
