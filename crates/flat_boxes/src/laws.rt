// The law of boxes, as the contract of a function that does nothing.

ghost use Rattle.flat_boxes.specs.Laws.{LawOfBoxesCaptured};

/// In a program that was made flat, whose functions have different parameters, no more variables have boxes than are captured.
pub fn law_boxes_captured()
    ensures { LawOfBoxesCaptured }
{}
