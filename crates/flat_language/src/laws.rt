// What is true of all programs that are made flat, as the contracts of functions that do nothing.

ghost use Rattle.flat_language.specs.Law.{LawOfClosures, LawOfFlatNodes, LawOfFlatPrograms};

use lang_meaning::laws::law_names;

/// The law of closures: a program that is made flat has, for every input, with every number of levels and of
/// words, the end, the bytes, the units and the peak that it had, and each value has the class that it had.
pub fn law_closures()
    ensures { LawOfClosures }
{
    law_names();
}

/// The law of flat nodes: a form that is made flat has as many nodes as it had.
pub fn law_flat_nodes()
    ensures { LawOfFlatNodes }
{}

/// The law of flat programs: in a program that is made flat each place is there and of its kind where it is named, a
/// captured value is never set, what a function captures is of the kinds that its procedure says, and a function has a
/// number above that of the function in which it is made; literals and sites are there, and primitives have as many
/// arguments as they take; a `return-from` leaves a block, and a `go` names a segment that its tagbody has, also where the
/// exit was captured.
pub fn law_flat_programs()
    ensures { LawOfFlatPrograms }
{
    law_names();
}
