// The laws of own slots for the lines of a tree, as the contracts of functions that do nothing.

ghost use Rattle.back_trivial.specs.KnownRecords.{RecordsAreKept};
ghost use Rattle.back_trivial.specs.FrameFound.{LawOfNoLent};
ghost use Rattle.back_trivial.specs.LentReturn.{LentReturnIsNotGood};
ghost use Rattle.back_trivial.specs.Laws.{LawOfTrivialLines, LawOfGoodLines};
ghost use Rattle.back_trivial.specs.StandingRecords.{LawOfKnownStages};

/// The records of lines and those that code knows are the same records, and so are those of an activation that stand.
pub fn law_known_records()
    ensures { RecordsAreKept }
{}

/// At each stage of a run of the lines of a tree, the records of the tree at the line of an activation are those that stand, as code
/// knows them; so they are for each caller.
pub fn law_known_stages()
    ensures { LawOfKnownStages }
{}

/// The lines of a program in form, whose frames are found: with each register in a slot of its own, facts flow along all lines and from
/// all entries, and all places are within the frame and within reach.
pub fn law_trivial_lines()
    ensures { LawOfTrivialLines }
{}

/// With good positions, the decisions by which each register of such a program is in a slot of its own are good.
pub fn law_good_lines()
    ensures { LawOfGoodLines }
{}

/// A program in form that returns while a block is lent: no decisions are good for its lines.
pub fn law_lent_return()
    ensures { LentReturnIsNotGood }
{}

/// A procedure that lends no block finds its frame, whatever records stand, where the frame has more words than there are registers.
pub fn law_no_lent()
    ensures { LawOfNoLent }
{}
