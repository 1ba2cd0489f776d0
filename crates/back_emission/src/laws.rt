// The laws, each as the contract of a function that does nothing.
ghost use Rattle.back_emission.specs.Laws.{LawOfComing, LawOfReading, LawOfLoading, LawOfInstructions, LawOfReach, LawOfLentWords, LawOfMoving};
ghost use Rattle.back_places.specs.StepLaw.{LawOfLine};
ghost use Rattle.back_emission.specs.Laying.{LawOfRoom, LawOfNewBlocks};
ghost use Rattle.back_emission.specs.Kinds.{IsComputation, IsChoice, IsEnd, IsCall, IsAccess, IsGivenBack, IsPut, IsLanding};

/// A machine that comes from one moment to a second and from there to a third comes to the third, and on the way it has not ended,
/// and what it has printed is a beginning of what it has printed there.
pub fn law_coming()
    ensures { LawOfComing }
{}

/// An operand is read from its place, near or far: a word of the frame and a constant into a scratch register.
pub fn law_reading()
    ensures { LawOfReading }
{}

/// A word comes from its place into a register, and all others but register 7 are as before.
pub fn law_loading()
    ensures { LawOfLoading }
{}

/// What instructions compute is what operations compute, with a register or a word as the second operand; branches go where tests
/// say; and the test for room is right.
pub fn law_instructions()
    ensures { LawOfInstructions }
{}

/// Branches and jumps within their reach come to the word that they go to, and jumps by two instructions to any.
pub fn law_reach()
    ensures { LawOfReach }
{}

/// No word that is lent is one that code has for itself.
pub fn law_lent_words()
    ensures { LawOfLentWords }
{}

/// The code that moves a word from one place to another brings the machine to the next line, where all is in its place.
pub fn law_moving()
    ensures { LawOfMoving }
{}

/// Moves, constants and computations.
pub fn law_computations()
    ensures { LawOfLine IsComputation }
{}

/// Jumps, branches and switches, near and far.
pub fn law_choices()
    ensures { LawOfLine IsChoice }
{}

/// Returns, to a caller and from the first procedure, halts, and conditions that are not handled.
pub fn law_ends()
    ensures { LawOfLine IsEnd }
{}

/// Calls, of a procedure by its number and by one in a register, with arguments in any order and any number of them.
pub fn law_calls()
    ensures { LawOfLine IsCall }
{}

/// Loads and stores.
pub fn law_accesses()
    ensures { LawOfLine IsAccess }
{}

/// Records and lent blocks that are given back.
pub fn law_given_back()
    ensures { LawOfLine IsGivenBack }
{}

/// Bytes that are printed.
pub fn law_puts()
    ensures { LawOfLine IsPut }
{}

/// The code that lays a block lowers the stack pointer, where there is room, in at most four instructions.
pub fn law_room()
    ensures { LawOfRoom }
{}

/// Heads of landings, at which lines are stuck: a cut goes behind them.
pub fn law_landings()
    ensures { LawOfLine IsLanding }
{}

/// A block that fits is laid: the machine is that of the arena with it, with the stack pointer lower.
pub fn law_new_blocks()
    ensures { LawOfNewBlocks }
{}
