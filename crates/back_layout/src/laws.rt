// The laws of the layout, as the contracts of functions that do nothing.

ghost use Rattle.back_layout.specs.Laws.{LawOfPositions, LawOfLaidOut, LawOfLayout, LawOfPlacedLaidOut, LawOfWords};

/// Each position is behind the one before by the length of the code there, and where all code ends below 2^24, addresses are words.
pub fn law_positions()
    ensures { LawOfPositions }
{}

/// Whatever was decided of places: where all code ends below 2^24, positions are good with it, and near jumps are near enough.
pub fn law_laid_out()
    ensures { LawOfLaidOut }
{}

/// Decisions that are good but for positions are good whole with these.
pub fn law_layout()
    ensures { LawOfLayout }
{}

/// Places that fit a program, with these positions: all that the law of steps asks of decisions holds.
pub fn law_placed_laid_out()
    ensures { LawOfPlacedLaidOut }
{}

/// The words of the image have the program, and are as many as positions say.
pub fn law_words()
    ensures { LawOfWords }
{}
