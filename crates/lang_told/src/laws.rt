// The laws of what is told, as contracts of functions that do nothing.

ghost use Rattle.lang_told.specs.Laws.{LawOfOneTelling, LawOfAlikeTellings};

/// Two texts that are told of a condition are one.
pub fn law_one_telling()
    ensures { LawOfOneTelling }
{}

/// In alike stores the same is told of a condition.
pub fn law_alike_tellings()
    ensures { LawOfAlikeTellings }
{}
