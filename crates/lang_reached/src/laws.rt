// The laws of what is left out, as the contracts of functions that do nothing.

ghost use Rattle.lang_reached.specs.Laws.{LawOfReached, LawOfWhole};

/// A program without the bodies of procedures that are not kept means the same, where all that is reached is kept.
pub fn law_reached()
    ensures { LawOfReached }
{}

/// A whole program stays whole where bodies are left out.
pub fn law_whole()
    ensures { LawOfWhole }
{}
