// The laws of renaming, as the contracts of functions that do nothing.

ghost use Rattle.lang_renamed.specs.Laws.{LawOfEvaluations, LawOfMeaning, LawOfRenamedRuns, LawOfSameRuns, LawOfTasks};

/// A task of a renamed program comes to the same outcome, with the renamed state.
pub fn law_tasks()
    ensures { LawOfTasks }
{}

/// A renamed program has the same end, prints the same, leaves the same input and counts the same units and words.
pub fn law_meaning()
    ensures { LawOfMeaning }
{}

/// What is evaluated reads and writes the same and ends the same where it is renamed.
pub fn law_evaluations()
    ensures { LawOfEvaluations }
{}

/// Two programs do the same where what they do is the same, each renamed to whatever numbers.
pub fn law_renamed_runs()
    ensures { LawOfRenamedRuns }
{}

/// Of two programs that do the same with every input an evaluation of the one is one of the other.
pub fn law_same_runs()
    ensures { LawOfSameRuns }
{}
