// The laws of ends, as the contracts of functions that do nothing.

ghost use Rattle.flat_ends.specs.Laws.{LawOfEnds, LawOfMainEnds};
ghost use Rattle.flat_ends.specs.Leaving.{LawOfSites, LawOfUnnamedExits, LawOfMadeExits, LawOfFinalSignals, LawOfSignalsBehind};

/// A task that goes to exit 0 goes there at a site, with an instance, with any number of levels.
pub fn law_ends()
    ensures { LawOfEnds }
{}

/// So does a main form.
pub fn law_main_ends()
    ensures { LawOfMainEnds }
{}

/// A transfer at a site goes to exit 0, whatever the program and the state.
pub fn law_sites()
    ensures { LawOfSites }
{}

/// An exit that nothing names is never left to.
pub fn law_unnamed_exits()
    ensures { LawOfUnnamedExits }
{}

/// Functions capture exits that were made.
pub fn law_made_exits()
    ensures { LawOfMadeExits }
{}

/// A signal whose mark is nil has no value.
pub fn law_final_signals()
    ensures { LawOfFinalSignals }
{}

/// Nor has a signal behind an application.
pub fn law_signals_behind()
    ensures { LawOfSignalsBehind }
{}
