// The law of the data of alike stores, as the contract of a function that does nothing.

ghost use Rattle.lang_alike.specs.Laws.{LawOfAlikeData};

/// In alike stores a value stands for the same data, and is refused for the same reasons.
pub fn law_alike_data()
    ensures { LawOfAlikeData }
{}
