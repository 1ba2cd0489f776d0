// The laws, each as the contract of a function that does nothing.
ghost use Rattle.back_relation.specs.Setting.{Setting};
ghost use Rattle.back_calling.specs.Calling.{LawOfFormCalls, LawOfSitedCalls, LawOfFailing};
ghost use Rattle.back_calling.specs.Entering.{LawOfTurns, LawOfPaidTurns, LawOfEnteredLevels, LawOfNumbers};
ghost use Rattle.back_calling.specs.Inner.{LawOfGoingOn, LawOfPassing, LawOfReturns, LawOfReturning, LawOfCallsThen, LawOfLooking, LawOfFormLooking};
ghost use Rattle.back_calling.specs.Storing.{LawOfStoring};
ghost use Rattle.back_calling.specs.Applying.{LawOfApplyingBodies, LawOfLevelsThere, LawOfJudgedLevels, LawOfFormLevels};

/// A control word is stored.
pub fn law_storing()
    ensures { (setting : Setting) → LawOfStoring setting }
{}

/// A procedure that a form calls.
pub fn law_form_calls()
    ensures { (setting : Setting) → LawOfFormCalls setting }
{}

/// The site is stored, and a routine is called.
pub fn law_sited_calls()
    ensures { (setting : Setting) → LawOfSitedCalls setting }
{}

/// A new condition is signalled by a form, and a routine called with two words.
pub fn law_failing()
    ensures { (setting : Setting) → LawOfFailing setting }
{}

/// A procedure that is entered with a turn.
pub fn law_turns()
    ensures { (setting : Setting) → LawOfTurns setting }
{}

/// A procedure that is entered with a level.
pub fn law_entered_levels()
    ensures { (setting : Setting) → LawOfEnteredLevels setting }
{}

/// Which procedures are entered by which numbers.
pub fn law_numbers()
    ensures { (setting : Setting) → LawOfNumbers setting }
{}

/// What was done, and what the rest of a call comes to.
pub fn law_going_on()
    ensures { (setting : Setting) → LawOfGoingOn setting }
{}

/// No routine falls out of its end.
pub fn law_passing()
    ensures { (setting : Setting) → LawOfPassing setting }
{}

/// A word is returned.
pub fn law_returns()
    ensures { (setting : Setting) → LawOfReturns setting }
{}

/// What a call comes to is returned.
pub fn law_returning()
    ensures { (setting : Setting) → LawOfReturning setting }
{}

/// A call, and what goes on with its result.
pub fn law_calls_then()
    ensures { (setting : Setting) → LawOfCallsThen setting }
{}

/// A call of a routine that only looks, in a routine.
pub fn law_looking()
    ensures { (setting : Setting) → LawOfLooking setting }
{}

/// A call of a routine that only looks, in a form.
pub fn law_form_looking()
    ensures { (setting : Setting) → LawOfFormLooking setting }
{}

/// A procedure that is entered with a turn, whose frame the meaning pays inside.
pub fn law_paid_turns()
    ensures { (setting : Setting) → LawOfPaidTurns setting }
{}

/// A function without further arguments is entered at its body.
pub fn law_applying_bodies()
    ensures { (setting : Setting) → LawOfApplyingBodies setting }
{}

/// There is a level, or there is none.
pub fn law_levels_there()
    ensures { (setting : Setting) → LawOfLevelsThere setting }
{}

/// A level is judged by a procedure.
pub fn law_judged_levels()
    ensures { (setting : Setting) → LawOfJudgedLevels setting }
{}

/// A level is judged by a form.
pub fn law_form_levels()
    ensures { (setting : Setting) → LawOfFormLevels setting }
{}
