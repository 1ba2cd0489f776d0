// The law of the conditions told, as the contract of a function that does nothing.

ghost use Rattle.back_told.specs.Conditions.{LawOfConditionsTold};

use back_build::law_words_left;
use lang_told::law_alike_tellings;

/// Where a run of an image that was built has ended unhandled, what is told by the words of its memory is told of the
/// condition by which the program ends.
pub fn law_conditions_told()
    ensures { LawOfConditionsTold }
{
    law_words_left();
    law_alike_tellings();
}
