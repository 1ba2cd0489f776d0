// Worked programs do lowered what they mean.

ghost use Rattle.std.specs.Prelude.{[], ◌∷◌};
ghost use Rattle.lang_worked.specs.Exits.{InnerFirst, InnerCatch, OuterCatch, EarlierTurn, TooFewLevels, StaleExit};
ghost use Rattle.lang_worked.specs.Conditions.{WithoutItself, Continued, NotContinuable, Returning, CleanupRuns, NoCatchLeft, Replaced, HandlerFails};
ghost use Rattle.lang_worked.specs.Data.{RestList, Floors, Overflow, NoFunction, NoValue, Counting, SetBinding};
ghost use Rattle.back_worked.specs.Small.{Halts, leaving, looping, fib, throwing, going, counting, binding, resting};
ghost use Rattle.back_worked.specs.Lists.{AppliedToTwo, AppliedToDotted, AppliedToThree, AppliedToCircle};
ghost use Rattle.back_worked.specs.Methods.{InOrder, CapturedMethod, NoMethod};
ghost use Rattle.back_worked.specs.Start.{DoesLowered};

/// Small programs halt with the numbers that they mean.
pub fn lowered_small()
    ensures leaving { Halts leaving [] 2 1 }
    ensures looping { Halts looping [] 6 6 }
    ensures fib { Halts fib (2 ∷ []) 8 8 }
    ensures throwing { Halts throwing [] 2 3 }
    ensures going { Halts going [] 8 4 }
    ensures counting { Halts counting (0 ∷ []) 8 6 }
    ensures binding { Halts binding (0 ∷ []) 4 3 }
    ensures resting { Halts resting (3 ∷ []) 4 4 }
{}

/// The worked programs of transfers and cleanups do lowered what they mean.
pub fn lowered_exits()
    ensures inner_first { InnerFirst DoesLowered }
    ensures inner_catch { InnerCatch DoesLowered }
    ensures outer_catch { OuterCatch DoesLowered }
    ensures earlier_turn { EarlierTurn DoesLowered }
    ensures too_few_levels { TooFewLevels DoesLowered }
    ensures stale_exit { StaleExit DoesLowered }
{}

/// The worked programs of conditions and handlers do lowered what they mean.
pub fn lowered_conditions()
    ensures without_itself { WithoutItself DoesLowered }
    ensures continued { Continued DoesLowered }
    ensures not_continuable { NotContinuable DoesLowered }
    ensures returning { Returning DoesLowered }
    ensures cleanup_runs { CleanupRuns DoesLowered }
    ensures no_catch_left { NoCatchLeft DoesLowered }
    ensures replaced { Replaced DoesLowered }
    ensures handler_fails { HandlerFails DoesLowered }
{}

/// The worked programs of data, variables and arguments do lowered what they mean.
pub fn lowered_values()
    ensures rest_list { RestList DoesLowered }
    ensures floors { Floors DoesLowered }
    ensures overflow { Overflow DoesLowered }
    ensures no_function { NoFunction DoesLowered }
    ensures no_value { NoValue DoesLowered }
    ensures counting { Counting DoesLowered }
    ensures set_binding { SetBinding DoesLowered }
{}

/// Functions are applied to the elements of lists, where these are proper and fit.
pub fn lowered_lists()
    ensures applied_to_two { AppliedToTwo DoesLowered }
    ensures applied_to_dotted { AppliedToDotted DoesLowered }
    ensures applied_to_three { AppliedToThree DoesLowered }
    ensures applied_to_circle { AppliedToCircle DoesLowered }
{}

/// Methods run in their order, also from functions that captured a method, and without one a function is undefined.
pub fn lowered_methods()
    ensures in_order { InOrder }
    ensures captured_method { CapturedMethod }
    ensures no_method { NoMethod }
{}
