// What is true of all programs and of all their runs, as the contracts of functions that do nothing.

ghost use Rattle.lang_meaning.specs.Laws.{LawOfLevels, LawOfGrowth, LawOfTransfers, LawOfExits};
ghost use Rattle.lang_meaning.specs.BoundNames.{LawOfNames};

/// The law of levels: an end within some levels is the same within more of them, with the same bytes,
/// units and peak; and what is printed within fewer levels is a beginning of what is printed within more.
pub fn law_levels()
    ensures { LawOfLevels }
{}

/// Bytes printed, units, the peak of words, and the numbers of exits and of fresh symbols never fall along
/// a run.
pub fn law_growth()
    ensures { LawOfGrowth }
{}

/// A transfer goes to one of the exits of its dynamic context, or to exit 0.
pub fn law_transfers()
    ensures { LawOfTransfers }
{}

/// No number of an exit is used twice: those made in a run are each above all made before.
pub fn law_exits()
    ensures { LawOfExits }
{}

/// In a program every name is bound where it stands: each body, of a function, a method, an initform, any
/// other procedure or a main form, stands in a scope of its own variables alone, and each function inside it
/// is made where what it captures is bound, and its body stands in the scope of that and its own variables.
pub fn law_names()
    ensures { LawOfNames }
{}
