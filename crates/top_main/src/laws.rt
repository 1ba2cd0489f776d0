// What is true of every program and every image of it, as the contract of a function that does nothing.

ghost use Rattle.top_main.specs.Agree.{LawOfAgreement};

use lang_meaning::laws::law_levels;

/// The law of agreement: where a program ends with a value or by a condition that it does not handle, and a run of
/// an image of it halts or ends so, both end alike, with the same bytes.
pub fn law_agree()
    ensures { LawOfAgreement }
{
    law_levels();
}
