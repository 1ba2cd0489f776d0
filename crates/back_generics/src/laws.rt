// The laws, each as the contract of a function that does nothing.
ghost use Rattle.back_generics.specs.Methods.{LawOfChains, LawOfChainClaims, LawOfNext, LawOfLentChains};
ghost use Rattle.back_generics.specs.Functions.{LawOfFunctions, LawOfFunctionClaims};
ghost use Rattle.back_generics.specs.Generics.{LawOfGenerics, LawOfGenericClaims};
ghost use Rattle.back_generics.specs.GenericCalls.{LawOfGenericCalls};
ghost use Rattle.back_generics.specs.NextForms.{LawOfNextForms};
ghost use Rattle.back_generics.specs.ValueCalls.{LawOfValueCalls};
ghost use Rattle.back_generics.specs.Law.{LawOfListApplications};

/// The chain of a generic function, with turns left over.
pub fn law_chains()
    ensures { LawOfChains }
{}

/// The chain of a generic function as it is claimed.
pub fn law_chain_claims()
    ensures { LawOfChainClaims }
{}

/// The next method of a method's call.
pub fn law_next()
    ensures { LawOfNext }
{}

/// The chain of a generic function, where there is a level, with its arguments in words that the application pays.
pub fn law_lent_chains()
    ensures { LawOfLentChains }
{}

/// The application of a value, with turns left over.
pub fn law_functions()
    ensures { LawOfFunctions }
{}

/// The same as it is claimed.
pub fn law_function_claims()
    ensures { LawOfFunctionClaims }
{}

/// The application of a generic function, with turns left over.
pub fn law_generics()
    ensures { LawOfGenerics }
{}

/// The same as it is claimed.
pub fn law_generic_claims()
    ensures { LawOfGenericClaims }
{}

/// The form of the next method.
pub fn law_next_forms()
    ensures { LawOfNextForms }
{}

/// A call of a value.
pub fn law_value_calls()
    ensures { LawOfValueCalls }
{}

/// A call of a generic function by its name.
pub fn law_generic_calls()
    ensures { LawOfGenericCalls }
{}

/// The application of a value to the elements of a list.
pub fn law_list_applications()
    ensures { LawOfListApplications }
{}
