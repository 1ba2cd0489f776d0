// Laws for the code around primitives, as the contracts of functions that do nothing.

ghost use Rattle.mid_arena.specs.Law.{LawOfValueWords, LawOfGrowth, LawOfOwnWords, LawOfNewOwnWords, LawOfNewFunctions, LawOfFrames};

/// No value has the word that a primitive returns for a signal, or that of a slot without a value; only nil has nil's.
pub fn law_value_words()
    ensures { LawOfValueWords }
{}

/// An arena whose heap grew represents the same state, whatever the words of the stack are.
pub fn law_growth()
    ensures { LawOfGrowth }
{}

/// An arena in which words changed that code has for itself represents the same state, and the words of all others are as they were.
pub fn law_own_words()
    ensures { LawOfOwnWords }
{}

/// An arena in which code took words for itself at the heap's end represents the same state.
pub fn law_new_own_words()
    ensures { LawOfNewOwnWords }
{}

/// An arena in which code made a function at the heap's end represents the state with that function.
pub fn law_new_functions()
    ensures { LawOfNewFunctions }
{}

/// The procedure of a primitive does what the primitive does, whatever the words of its frame are.
pub fn law_frames()
    ensures { LawOfFrames }
{}
