// The laws of evaluations without a limit, as the contracts of functions that do nothing.

ghost use Rattle.flat_unlimited.specs.Laws.{LawOfUnlimitedForms, LawOfUnlimitedRuns};

/// No task ends for want of words, with any number of levels, in any state.
pub fn law_unlimited_forms()
    ensures { LawOfUnlimitedForms }
{}

/// No program does.
pub fn law_unlimited_runs()
    ensures { LawOfUnlimitedRuns }
{}
