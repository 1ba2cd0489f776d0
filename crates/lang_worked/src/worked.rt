// Worked programs: what some programs that are written out do, as the contracts of functions that do nothing.

ghost use Rattle.lang_worked.specs.ByHand.{EndsAndPrints};
ghost use Rattle.lang_worked.specs.Exits.{InnerFirst, InnerCatch, OuterCatch, EarlierTurn, TooFewLevels, StaleExit, ManyCleanups};
ghost use Rattle.lang_worked.specs.Conditions.{WithoutItself, Continued, NotContinuable, Returning, CleanupRuns, NoCatchLeft, Replaced, HandlerFails};
ghost use Rattle.lang_worked.specs.Calls.{MethodsInOrder, SeenThroughACall, OneApplication, FullAtTheForm, FullAtTheCons};
ghost use Rattle.lang_worked.specs.Data.{DottedList, StringInAVector, ChangedLiteral, RestList, Applied, AppliedToADottedList, TooManyArguments, Floors, Overflow, NoFunction, NoValue, Counting, CountingWords, SetBinding, SlotPlaces, SlotInitarg, SlotForm, UnboundSlot, SetSlot, TwoBytes};
ghost use Rattle.lang_worked.specs.Programs.{WorkedAreWhole, TooFewArguments, GoOutside, NoSuchSegment, NoSegment, GoToABlock, Captured, InOrder, BoxOfItsOwn, Uncalled, MadeByUncalled, NotThere, NodesOfOneApplication, NotReached, BoxesOfMethods};

/// Programs of transfers and cleanups do what their comments in `specs/Exits.antt` say.
pub fn worked_exits()
    ensures inner_first { InnerFirst EndsAndPrints }
    ensures inner_catch { InnerCatch EndsAndPrints }
    ensures outer_catch { OuterCatch EndsAndPrints }
    ensures earlier_turn { EarlierTurn EndsAndPrints }
    ensures too_few_levels { TooFewLevels EndsAndPrints }
    ensures stale_exit { StaleExit EndsAndPrints }
    ensures many_cleanups { ManyCleanups EndsAndPrints }
{}

/// Programs of conditions and handlers do what their comments in `specs/Conditions.antt` say.
pub fn worked_conditions()
    ensures without_itself { WithoutItself EndsAndPrints }
    ensures continued { Continued EndsAndPrints }
    ensures not_continuable { NotContinuable EndsAndPrints }
    ensures returning { Returning EndsAndPrints }
    ensures cleanup_runs { CleanupRuns EndsAndPrints }
    ensures no_catch_left { NoCatchLeft EndsAndPrints }
    ensures replaced { Replaced EndsAndPrints }
    ensures handler_fails { HandlerFails EndsAndPrints }
{}

/// Programs of methods, dynamic variables and charges do what their comments in `specs/Calls.antt` say.
pub fn worked_calls()
    ensures methods_in_order { MethodsInOrder EndsAndPrints }
    ensures seen_through_a_call { SeenThroughACall EndsAndPrints }
    ensures one_application { OneApplication }
    ensures full_at_the_form { FullAtTheForm EndsAndPrints }
    ensures full_at_the_cons { FullAtTheCons EndsAndPrints }
{}

/// The worked programs are whole ones, and programs with a name out of its place, in procedures that
/// nothing calls too, a wrong number of arguments or wrong captured parts are not; which variable has a box;
/// and nodes, reached nodes and cells as counted by hand.
pub fn worked_programs()
    ensures worked_are_whole { WorkedAreWhole }
    ensures too_few_arguments { TooFewArguments }
    ensures go_outside { GoOutside }
    ensures no_such_segment { NoSuchSegment }
    ensures no_segment { NoSegment }
    ensures go_to_a_block { GoToABlock }
    ensures captured { Captured }
    ensures in_order { InOrder }
    ensures box_of_its_own { BoxOfItsOwn }
    ensures uncalled { Uncalled }
    ensures made_by_uncalled { MadeByUncalled }
    ensures not_there { NotThere }
    ensures nodes_of_one_application { NodesOfOneApplication }
    ensures not_reached { NotReached }
    ensures cells_of_methods { BoxesOfMethods }
{}

/// Programs of literals, data, variables and arguments do what their comments in
/// `specs/Data.antt` say.
pub fn worked_data()
    ensures dotted_list { DottedList EndsAndPrints }
    ensures string_in_a_vector { StringInAVector EndsAndPrints }
    ensures changed_literal { ChangedLiteral EndsAndPrints }
    ensures rest_list { RestList EndsAndPrints }
    ensures applied { Applied EndsAndPrints }
    ensures applied_to_a_dotted_list { AppliedToADottedList EndsAndPrints }
    ensures too_many_arguments { TooManyArguments EndsAndPrints }
    ensures floors { Floors EndsAndPrints }
    ensures overflow { Overflow EndsAndPrints }
    ensures no_function { NoFunction EndsAndPrints }
    ensures no_value { NoValue EndsAndPrints }
    ensures counting { Counting EndsAndPrints }
    ensures counting_words { CountingWords }
    ensures set_binding { SetBinding EndsAndPrints }
    ensures slot_places { SlotPlaces EndsAndPrints }
    ensures slot_initarg { SlotInitarg EndsAndPrints }
    ensures slot_form { SlotForm EndsAndPrints }
    ensures unbound_slot { UnboundSlot EndsAndPrints }
    ensures set_slot { SetSlot EndsAndPrints }
    ensures two_bytes { TwoBytes }
{}
