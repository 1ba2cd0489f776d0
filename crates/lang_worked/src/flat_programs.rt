// Worked programs: what they do when they are made flat, as the contracts of functions that do nothing.

ghost use Rattle.lang_worked.specs.Exits.{InnerFirst, InnerCatch, OuterCatch, EarlierTurn, TooFewLevels, StaleExit, ManyCleanups};
ghost use Rattle.lang_worked.specs.Conditions.{WithoutItself, Continued, NotContinuable, Returning, CleanupRuns, NoCatchLeft, Replaced, HandlerFails};
ghost use Rattle.lang_worked.specs.Calls.{MethodsInOrder, SeenThroughACall, FullAtTheForm, FullAtTheCons};
ghost use Rattle.lang_worked.specs.Data.{DottedList, StringInAVector, ChangedLiteral, RestList, Applied, AppliedToADottedList, TooManyArguments, Floors, Overflow, NoFunction, NoValue, Counting, SetBinding, SlotPlaces, SlotInitarg, SlotForm, UnboundSlot, SetSlot};
ghost use Rattle.lang_worked.specs.Flat.{DoesFlat, OneApplication, TwoBytes, CountingWords, CountingFlat};
ghost use Rattle.lang_worked.specs.Frames.{OwnSlots, SlotsLeft};

/// The worked programs of transfers and cleanups do flat what they did.
pub fn flat_exits()
    ensures inner_first { InnerFirst DoesFlat }
    ensures inner_catch { InnerCatch DoesFlat }
    ensures outer_catch { OuterCatch DoesFlat }
    ensures earlier_turn { EarlierTurn DoesFlat }
    ensures too_few_levels { TooFewLevels DoesFlat }
    ensures stale_exit { StaleExit DoesFlat }
    ensures many_cleanups { ManyCleanups DoesFlat }
{}

/// The worked programs of conditions and handlers do flat what they did.
pub fn flat_conditions()
    ensures without_itself { WithoutItself DoesFlat }
    ensures continued { Continued DoesFlat }
    ensures not_continuable { NotContinuable DoesFlat }
    ensures returning { Returning DoesFlat }
    ensures cleanup_runs { CleanupRuns DoesFlat }
    ensures no_catch_left { NoCatchLeft DoesFlat }
    ensures replaced { Replaced DoesFlat }
    ensures handler_fails { HandlerFails DoesFlat }
{}

/// The worked programs of methods, dynamic variables and a full arena do flat what they did.
pub fn flat_calls()
    ensures methods_in_order { MethodsInOrder DoesFlat }
    ensures seen_through_a_call { SeenThroughACall DoesFlat }
    ensures full_at_the_form { FullAtTheForm DoesFlat }
    ensures full_at_the_cons { FullAtTheCons DoesFlat }
{}

/// The worked programs of literals, data, variables and arguments do flat what they did.
pub fn flat_data()
    ensures dotted_list { DottedList DoesFlat }
    ensures string_in_a_vector { StringInAVector DoesFlat }
    ensures changed_literal { ChangedLiteral DoesFlat }
    ensures rest_list { RestList DoesFlat }
    ensures applied { Applied DoesFlat }
    ensures applied_to_a_dotted_list { AppliedToADottedList DoesFlat }
    ensures too_many_arguments { TooManyArguments DoesFlat }
    ensures floors { Floors DoesFlat }
    ensures overflow { Overflow DoesFlat }
    ensures no_function { NoFunction DoesFlat }
    ensures no_value { NoValue DoesFlat }
    ensures counting { Counting DoesFlat }
    ensures set_binding { SetBinding DoesFlat }
    ensures slot_places { SlotPlaces DoesFlat }
    ensures slot_initarg { SlotInitarg DoesFlat }
    ensures slot_form { SlotForm DoesFlat }
    ensures unbound_slot { UnboundSlot DoesFlat }
    ensures set_slot { SetSlot DoesFlat }
{}

/// The units and the words of an application, an input of two bytes, the words of a function that captures a box and its flat form, which
/// `specs/Flat.antt` shows; and two programs that set slots: each activation its own, and one around a form that a transfer leaves.
pub fn worked_flat()
    ensures one_application { OneApplication }
    ensures two_bytes { TwoBytes }
    ensures counting_words { CountingWords }
    ensures counting_flat { CountingFlat }
    ensures own_slots { OwnSlots }
    ensures slots_left { SlotsLeft }
{}
