// The laws, each as the contract of a function that does nothing.
ghost use Rattle.back_places.specs.StepLaw.{LawOfLine, LawOfEntries, LawOfSteps};
ghost use Rattle.back_steps.specs.AskingKinds.{IsGet, IsDraw, IsRequest};
ghost use Rattle.back_steps.specs.LayingKinds.{IsLay, IsLend};
ghost use Rattle.back_steps.specs.CuttingKind.{IsCut};

/// Bytes that are read.
pub fn law_gets()
    ensures { LawOfLine IsGet }
{}

/// Serial numbers that are drawn, where the last one was not drawn yet.
pub fn law_draws()
    ensures { LawOfLine IsDraw }
{}

/// Words that are requested, where they are left and where they are not.
pub fn law_requests()
    ensures { LawOfLine IsRequest }
{}

/// Control records that are laid, where there is room and where there is none.
pub fn law_lays()
    ensures { LawOfLine IsLay }
{}

/// Blocks that are lent, of as many words as a register says, where there is room and where there is none.
pub fn law_lends()
    ensures { LawOfLine IsLend }
{}

/// Cuts, to a record of the activation that runs or of one of its callers.
pub fn law_cuts()
    ensures { LawOfLine IsCut }
{}

/// Entries of procedures, where there is room for the frame and where there is none.
pub fn law_entries()
    ensures { LawOfEntries }
{}

/// Each step of lines is matched by the machine, in no more instructions than it costs.
pub fn law_steps()
    ensures { LawOfSteps }
{}
