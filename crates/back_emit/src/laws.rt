// The laws of spots and of ways, as the contracts of functions that do nothing.

ghost use Rattle.back_emit.specs.Agree.{LawOfSpots};
ghost use Rattle.back_emit.specs.TreeWays.{LawOfTreeWays};
ghost use Rattle.back_emit.specs.PlacedSizes.{LawOfPlacedRests};
ghost use Rattle.back_emit.specs.PlacedNear.{LawOfPlacedNear};

/// Where a line's spot, with the places of registers, says what was decided, the code of the line is the code from its spot.
pub fn law_spots()
    ensures { LawOfSpots }
{}

/// The ways to the frame at the lines of a tree are those past the records that stand there.
pub fn law_tree_ways()
    ensures { LawOfTreeWays }
{}

/// What is left from each line on, counted from the spots of lines, is what the layout counts.
pub fn law_placed_rests()
    ensures { LawOfPlacedRests }
{}

/// Where a line's spot says what was decided, its jump is near by the spot where it is near by the layout.
pub fn law_placed_near()
    ensures { LawOfPlacedNear }
{}
