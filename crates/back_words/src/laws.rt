// Laws of the words of lowered programs, each as the contract of a function that does nothing.
ghost use Rattle.back_words.specs.Laws.{LawOfPlacedWords, LawOfPlacedPrograms, LawOfBeginnings, LawOfWholePrograms, LawOfGivenSymbols};

/// Words are where code looks for them.
pub fn law_placed_words()
    ensures { LawOfPlacedWords }
{}

/// And what the forms of a program name has its word.
pub fn law_placed_programs()
    ensures { LawOfPlacedPrograms }
{}

/// A state of middle code that begins with the words of a program is one where the program begins.
pub fn law_beginnings()
    ensures { LawOfBeginnings }
{}

/// Whole programs that were made flat have the rows and the forms that are asked.
pub fn law_whole_programs()
    ensures { LawOfWholePrograms }
{}

/// Symbols that were laid have words that are not nil's.
pub fn law_given_symbols()
    ensures { LawOfGivenSymbols }
{}
