// The law of the stores of flat programs, as the contract of a function that does nothing.

ghost use Rattle.flat_stores.specs.Laws.{LawOfStores};

use lang_meaning::laws::law_names;

/// A program that is made flat leaves the objects that it left before, but that where one store has a closure, the other
/// has the function of its procedure.
pub fn law_stores()
    ensures { LawOfStores }
{
    law_names();
}
