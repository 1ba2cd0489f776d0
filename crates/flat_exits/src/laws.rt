// The laws of exits and units, as the contracts of functions that do nothing.

ghost use Rattle.flat_exits.specs.Laws.{LawOfExitsOfForms, LawOfExitsOfRuns};

/// A task makes no more exits than it is charged units, with any number of levels, in any state.
pub fn law_exits_of_forms()
    ensures { LawOfExitsOfForms }
{}

/// A program has made at most one exit more than it is charged units: exit 0 is there from the start.
pub fn law_exits_of_runs()
    ensures { LawOfExitsOfRuns }
{}
