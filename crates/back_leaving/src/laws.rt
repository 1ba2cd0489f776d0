// The law of how applications leave, as the contract of a function that does nothing.
ghost use Rattle.back_leaving.specs.Leaving.{LawOfFunctionsLeave};

/// A transfer at a site goes to the end of the program; and no control error has a value.
pub fn law_functions_leave()
    ensures { LawOfFunctionsLeave }
{}
