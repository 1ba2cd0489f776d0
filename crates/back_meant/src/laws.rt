// The law of images of lowered programs, as the contract of a function that does nothing.

ghost use Rattle.back_meant.specs.Laws.{LawOfMeantRuns};

/// Where lowering is right: so many instructions of an image have printed a beginning of what the program prints, a halt has the word of its
/// value, an end by a condition its class, site and word; and where the program ends within the words that there are, the image has ended so in
/// as many instructions as it is charged.
pub fn law_meant_runs()
    ensures { LawOfMeantRuns }
{}
