// What is true of all flat programs and of all their runs, as the contracts of functions that do nothing.

ghost use Rattle.flat_laws.specs.Laws.{LawOfBlanks, LawOfFlatGrowth, LawOfFlatRuns, LawOfFlatTransfers, LawOfPrimitives};

/// The law of blanks: an object that has the blank of another one, which is what the law of flat growth says of an object
/// before and after, is of its class and kind, has as many characters, elements or slots, and is the same where nothing can
/// be set in it.
pub fn law_blanks()
    ensures { LawOfBlanks }
{}

/// The law of flat growth: along a run bytes printed stay, the input left only shrinks, units, words of the heap, their
/// peak and the numbers of exits, fresh symbols, objects and variables never fall, objects stay of their kind and size,
/// what a function captured stays, and each activation gives back its words and its slots.
pub fn law_flat_growth()
    ensures { LawOfFlatGrowth }
{}

/// The law of flat growth for main forms and whole programs, whatever their end.
pub fn law_flat_runs()
    ensures { LawOfFlatRuns }
{}

/// A transfer goes to one of the exits of its dynamic context, or to exit 0.
pub fn law_flat_transfers()
    ensures { LawOfFlatTransfers }
{}

/// A primitive leaves of the state all but units, bytes and the object that a setter is given, which stays of its kind and
/// size: bytes printed stay, the input left only shrinks, and units never fall. Where an object is to be made or an argument
/// is of another class than expected it leaves all, and where another condition is to be signalled all but units.
pub fn law_primitives()
    ensures { LawOfPrimitives }
{}
