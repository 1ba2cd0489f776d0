// What is true along every run of the machine, as the contracts of functions that do nothing.

ghost use Rattle.eval_machine.specs.RunLaws.{LawOfPrinting, LawOfReading, LawOfUnits, LawOfWords};

/// The law of printing: from every configuration on, what was printed stays, and what is printed later stands behind it.
pub fn law_printing()
    ensures { LawOfPrinting }
{}

/// The law of reading: from every configuration on, what is left of the input are the last ones of the bytes that were left.
pub fn law_reading()
    ensures { LawOfReading }
{}

/// The law of units: from every configuration on, each form that begins counts a unit or more, and none is taken back.
pub fn law_units()
    ensures { LawOfUnits }
{}

/// The law of words: where a run has come to Full, more words were asked for than were left.
pub fn law_words()
    ensures { LawOfWords }
{}
