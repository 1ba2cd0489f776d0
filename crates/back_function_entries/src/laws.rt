// The laws, each as the contract of a function that does nothing.
ghost use Rattle.back_function_entries.specs.Applies.{LawOfApplies};
ghost use Rattle.back_function_entries.specs.KnownCalls.{LawOfKnownCalls, LawOfUndefinedCalls, LawOfWrongCalls};
ghost use Rattle.back_function_entries.specs.Bodies.{LawOfBodies};
ghost use Rattle.back_function_entries.specs.Lending.{LawOfLentEntries};
ghost use Rattle.back_function_entries.specs.Entries.{LawOfEntries};
ghost use Rattle.back_function_entries.specs.Lists.{LawOfMadeLists, LawOfListsAt};
ghost use Rattle.back_function_entries.specs.RestCalls.{LawOfRestCalls};
ghost use Rattle.back_function_entries.specs.RestForms.{LawOfRestForms};
ghost use Rattle.back_function_entries.specs.EntryLists.{LawOfLists};
ghost use Rattle.back_function_entries.specs.Methods.{LawOfMethods};

/// A call of a function by its name, with as many arguments as it takes.
pub fn law_known_calls()
    ensures { LawOfKnownCalls }
{}

/// A call of a name without a function.
pub fn law_undefined_calls()
    ensures { LawOfUndefinedCalls }
{}

/// A call with a wrong number of arguments.
pub fn law_wrong_calls()
    ensures { LawOfWrongCalls }
{}

/// The application of a function to a list.
pub fn law_applies()
    ensures { LawOfApplies }
{}

/// The body of a function.
pub fn law_bodies()
    ensures { LawOfBodies }
{}

/// The entry of any function, whatever it is called as.
pub fn law_entries()
    ensures { LawOfEntries }
{}

/// The entry of any function, where there is a level, with its arguments in words that the application pays.
pub fn law_lent_entries()
    ensures { LawOfLentEntries }
{}

/// A list of words in registers is made, or there are no words for it.
pub fn law_made_lists()
    ensures { LawOfMadeLists }
{}

/// What goes on with the list, from a point of an activation.
pub fn law_lists_at()
    ensures { LawOfListsAt }
{}

/// A call of a function that takes further arguments, from where all words are in registers.
pub fn law_rest_calls()
    ensures { LawOfRestCalls }
{}

/// The form that calls such a function by its name.
pub fn law_rest_forms()
    ensures { LawOfRestForms }
{}

/// A list of further arguments is made, with turns left over and the site as it was.
pub fn law_lists()
    ensures { LawOfLists }
{}

/// The call of a method is kept, with a unit and turns left over and the site as it was.
pub fn law_methods()
    ensures { LawOfMethods }
{}
