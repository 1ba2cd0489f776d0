// Laws of the meaning of middle code, as the contracts of functions that do nothing.

ghost use Rattle.mid_code.specs.Law.{LawOfPrinting, LawOfCosts, LawOfArenas, LawOfLevels, LawOfWords};
ghost use Rattle.mid_code.specs.BlockLaw.{LawOfBlocks};

/// What was printed stays, and more stands behind it.
pub fn law_printing()
    ensures { LawOfPrinting }
{}

/// The cost of a run never falls.
pub fn law_costs()
    ensures { LawOfCosts }
{}

/// The arena keeps its size and what is laid beside the code, and its heap only grows.
pub fn law_arenas()
    ensures { LawOfArenas }
{}

/// With more levels and turns a run that ended for want of them goes on, and any other run is the same.
pub fn law_levels()
    ensures { LawOfLevels }
{}

/// Of a program in form, all words stay below 2^32: in the arena, in registers, and in the end.
pub fn law_words()
    ensures { LawOfWords }
{}

/// Code that falls out leaves the blocks as they were, and so does a procedure that returns; a cut leaves an outer part of them, from an
/// open control record on.
pub fn law_blocks()
    ensures { LawOfBlocks }
{}
