// The laws, each as the contract of a function that does nothing.
ghost use Rattle.back_relation.specs.Cuts.{LawOfCuts};
ghost use Rattle.back_relation.specs.FormLaws.{LawOfLiterals, LawOfSlots, LawOfSequences, LawOfWholeSequences, LawOfLoops, LawOfWhiles, LawOfJudging, LawOfClauses, LawOfWholeClauses, LawOfWholeWhiles};
ghost use Rattle.back_relation.specs.Law.{LawOfParts, LawOfAround, LawOfTwoParts, LawOfChoices};
ghost use Rattle.back_relation.specs.Reaches.{LawOfReaches};
ghost use Rattle.back_relation.specs.Stores.{LawOfStores};
ghost use Rattle.back_relation.specs.Walks.{LawOfWalks};

/// Code in two parts.
pub fn law_parts()
    ensures { LawOfParts }
{}

/// What is around stands again where a part of code is done.
pub fn law_around()
    ensures { LawOfAround }
{}

/// A part, and what goes on with its value.
pub fn law_two_parts()
    ensures { LawOfTwoParts }
{}

/// A choice by a test.
pub fn law_choices()
    ensures { LawOfChoices }
{}

/// Literals that are there.
pub fn law_literals()
    ensures { LawOfLiterals }
{}

/// Variables in slots.
pub fn law_slots()
    ensures { LawOfSlots }
{}

/// Forms in order, in one scope.
pub fn law_sequences()
    ensures { LawOfSequences }
{}

/// Forms in order, wherever they stand.
pub fn law_whole_sequences()
    ensures { LawOfWholeSequences }
{}

/// Loops of the program.
pub fn law_loops()
    ensures { LawOfLoops }
{}

/// What a cut leaves of the stack.
pub fn law_cuts()
    ensures { LawOfCuts }
{}

/// The walk of a transfer.
pub fn law_walks()
    ensures { LawOfWalks }
{}

/// Words that are stored one after another.
pub fn law_stores()
    ensures { LawOfStores }
{}

/// A form that is judged by its value.
pub fn law_judging()
    ensures { LawOfJudging }
{}

/// Clauses, in one scope.
pub fn law_clauses()
    ensures { LawOfClauses }
{}

/// Forms of loops, in one scope.
pub fn law_whiles()
    ensures { LawOfWhiles }
{}

/// How an exit of the activation may be left, under one more record.
pub fn law_reaches()
    ensures { LawOfReaches }
{}

/// Clauses, wherever they stand.
pub fn law_whole_clauses()
    ensures { LawOfWholeClauses }
{}

/// Loops, wherever they stand.
pub fn law_whole_whiles()
    ensures { LawOfWholeWhiles }
{}
