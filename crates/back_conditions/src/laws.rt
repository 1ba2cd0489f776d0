// The laws, each as the contract of a function that does nothing.
ghost use Rattle.back_conditions.specs.Law.{LawOfUnhandled, LawOfNewConditions, LawOfPending, LawOfSignals, LawOfErrors, LawOfUnhandledErrors};
ghost use Rattle.back_conditions.specs.HandledLaw.{LawOfWrong, LawOfRaising, LawOfHandledErrors};
ghost use Rattle.back_conditions.specs.Looking.{LawOfFunctionTests, LawOfFunctionClaims, LawOfClassNumbers, LawOfClassClaims, LawOfBindings, LawOfBindingClaims};
ghost use Rattle.back_conditions.specs.Forms.{LawOfDynamicLets, LawOfDynamics, LawOfHandlers, LawOfThrows, LawOfSignalForms, LawOfContinuing};
ghost use Rattle.back_conditions.specs.ValueForms.{LawOfDynamicDefinitions, LawOfSettingDynamics};

/// A condition for which there is no handler.
pub fn law_unhandled()
    ensures { LawOfUnhandled }
{}

/// New conditions that are signalled.
pub fn law_conditions()
    ensures { LawOfNewConditions }
{}

/// The condition that a primitive made.
pub fn law_pending()
    ensures { LawOfPending }
{}

/// What goes wrong where there is no handler.
pub fn law_unhandled_errors()
    ensures { LawOfUnhandledErrors }
{}

/// A value is signalled if it is a condition.
pub fn law_signals()
    ensures { LawOfSignals }
{}

/// What goes wrong.
pub fn law_errors()
    ensures { LawOfErrors }
{}

/// What signals what goes wrong in an application matters only under what is around it.
pub fn law_wrong()
    ensures { LawOfWrong }
{}

/// A condition is raised, whatever handlers are around.
pub fn law_raising()
    ensures { LawOfRaising }
{}

/// What goes wrong, whatever handlers are around.
pub fn law_handled_errors()
    ensures { LawOfHandledErrors }
{}

/// Whether a value is a function.
pub fn law_function_tests()
    ensures { LawOfFunctionTests }
{}

/// The number of a value's class.
pub fn law_class_numbers()
    ensures { LawOfClassNumbers }
{}

/// Where the value of a dynamic variable is.
pub fn law_bindings()
    ensures { LawOfBindings }
{}

/// The same, as the relation of lowered code claims it.
pub fn law_binding_claims()
    ensures { LawOfBindingClaims }
{}

/// Whether a value is a function, as the relation of lowered code claims it.
pub fn law_function_claims()
    ensures { LawOfFunctionClaims }
{}

/// The number of a value's class, as the relation of lowered code claims it.
pub fn law_class_claims()
    ensures { LawOfClassClaims }
{}

/// Dynamic bindings around a form.
pub fn law_dynamic_lets()
    ensures { LawOfDynamicLets }
{}

/// The value of a dynamic variable.
pub fn law_dynamics()
    ensures { LawOfDynamics }
{}

/// A handler around a form.
pub fn law_handlers()
    ensures { LawOfHandlers }
{}

/// A throw to a tag.
pub fn law_throws()
    ensures { LawOfThrows }
{}

/// A condition is signalled.
pub fn law_signal_forms()
    ensures { LawOfSignalForms }
{}

/// A signal is continued.
pub fn law_continuing()
    ensures { LawOfContinuing }
{}

/// Dynamic variables are defined.
pub fn law_dynamic_definitions()
    ensures { LawOfDynamicDefinitions }
{}

/// Dynamic variables are set.
pub fn law_setting_dynamics()
    ensures { LawOfSettingDynamics }
{}
