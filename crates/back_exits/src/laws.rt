// The laws, each as the contract of a function that does nothing.
ghost use Rattle.back_relation.specs.Setting.{Setting};
ghost use Rattle.back_relation.specs.Starts.{Start};
ghost use Rattle.back_exits.specs.AtOnce.{LawOfReturnsAtOnce, LawOfGoesAtOnce};
ghost use Rattle.back_exits.specs.Blocks.{LawOfBlocks, LawOfWholeBlocks, LawOfCatches, LawOfWholeCatches};
ghost use Rattle.back_exits.specs.Going.{LawOfGoing};
ghost use Rattle.back_exits.specs.Inside.{LawOfSurroundings, LawOfBodies};
ghost use Rattle.back_exits.specs.RecordSteps.{LawOfRecordSteps};
ghost use Rattle.back_exits.specs.Touching.{LawOfTouching};
ghost use Rattle.back_exits.specs.Law.{LawOfTransfers, LawOfLeaving};
ghost use Rattle.back_exits.specs.Links.{LawOfLinks};
ghost use Rattle.back_exits.specs.Tags.{LawOfTags};
ghost use Rattle.back_exits.specs.Cleanups.{LawOfUnwinds, LawOfWholeUnwinds};
ghost use Rattle.back_exits.specs.Returns.{LawOfReturnsByTransfer, LawOfGoesByTransfer};
ghost use Rattle.back_exits.specs.Tagbodies.{LawOfTurns, LawOfTagbodies, LawOfWholeTurns, LawOfWholeTagbodies, LawOfTagbodiesAtLevels};
ghost use Rattle.back_exits.specs.TransfersGoing.{LawOfTransferGoes};
ghost use Rattle.back_exits.specs.WholeCleanups.{LawOfUnwinding, LawOfWholeUnwinding};
ghost use Rattle.back_exits.specs.Exits.{LawOfReturns, LawOfGoes};
ghost use Rattle.back_exits.specs.Whole.{LawOfWholeReturns, LawOfWholeGoes};
ghost use Rattle.back_exits.specs.Once.{LawOfCleanedOnce, LawOfUnwound, LawOfWholeUnwound};

/// What the steps of control records do.
pub fn law_record_steps()
    ensures { LawOfRecordSteps }
{}

/// What words say goes on being said where control words are stored.
pub fn law_going()
    ensures { (setting : Setting) → LawOfGoing setting }
{}

/// What words say goes on being said where blocks are laid or given back, and control words and words of new blocks are stored.
pub fn law_touching()
    ensures { LawOfTouching }
{}

/// What is around inside a control record that was laid.
pub fn law_surroundings()
    ensures { (setting : Setting) → (a : Start setting) → LawOfSurroundings setting a }
{}

/// Where the code inside a control record begins.
pub fn law_bodies()
    ensures { (setting : Setting) → (a : Start setting) → LawOfBodies setting a }
{}

/// A block, in one scope.
pub fn law_blocks()
    ensures { LawOfBlocks }
{}

/// A block, wherever it stands.
pub fn law_whole_blocks()
    ensures { LawOfWholeBlocks }
{}

/// A `return-from` an own block that may be left at once.
pub fn law_returns_at_once()
    ensures { LawOfReturnsAtOnce }
{}

/// A `go` to an own tagbody that may be left at once.
pub fn law_goes_at_once()
    ensures { LawOfGoesAtOnce }
{}

/// A catch, in one scope.
pub fn law_catches()
    ensures { LawOfCatches }
{}

/// A catch, wherever it stands.
pub fn law_whole_catches()
    ensures { LawOfWholeCatches }
{}

/// An exit is sought by its number.
pub fn law_links()
    ensures { LawOfLinks }
{}

/// An exit is sought by its kind and its tag.
pub fn law_tags()
    ensures { LawOfTags }
{}

/// A transfer to the record of a valid exit.
pub fn law_transfers()
    ensures { LawOfTransfers }
{}

/// Transfers to an exit that is sought.
pub fn law_leaving()
    ensures { LawOfLeaving }
{}

/// A form with a cleanup, in one scope.
pub fn law_unwinds()
    ensures { LawOfUnwinds }
{}

/// A form with a cleanup, wherever it stands.
pub fn law_whole_unwinds()
    ensures { LawOfWholeUnwinds }
{}

/// A `return-from` an own block that is left by a transfer.
pub fn law_returns_by_transfer()
    ensures { LawOfReturnsByTransfer }
{}

/// A `go` to an own tagbody that is left by a transfer.
pub fn law_goes_by_transfer()
    ensures { LawOfGoesByTransfer }
{}

/// The turns of a tagbody, in one scope.
pub fn law_turns()
    ensures { LawOfTurns }
{}

/// A tagbody, in one scope.
pub fn law_tagbodies()
    ensures { LawOfTagbodies }
{}

/// The turns of a tagbody, wherever it stands.
pub fn law_whole_turns()
    ensures { LawOfWholeTurns }
{}

/// A tagbody, wherever it stands.
pub fn law_whole_tagbodies()
    ensures { LawOfWholeTagbodies }
{}

/// A tagbody, wherever it stands, whose segments do what they mean at all levels.
pub fn law_tagbodies_at_levels()
    ensures { LawOfTagbodiesAtLevels }
{}

/// The routine of transfers does what forms ask of it.
pub fn law_transfer_goes()
    ensures { LawOfTransferGoes }
{}

/// A form with a cleanup, in one scope.
pub fn law_unwinding()
    ensures { LawOfUnwinding }
{}

/// A form with a cleanup, wherever it stands.
pub fn law_whole_unwinding()
    ensures { LawOfWholeUnwinding }
{}

/// A `return-from` an own block whose record is at hand.
pub fn law_returns()
    ensures { LawOfReturns }
{}

/// A `go` to an own tagbody whose record is at hand.
pub fn law_goes()
    ensures { LawOfGoes }
{}

/// A `return-from` an own block whose record is at hand, wherever it stands.
pub fn law_whole_returns()
    ensures { LawOfWholeReturns }
{}

/// A `go` to an own tagbody whose record is at hand, wherever it stands.
pub fn law_whole_goes()
    ensures { LawOfWholeGoes }
{}

/// The meaning runs a cleanup once, however the form is left.
pub fn law_cleaned_once()
    ensures { LawOfCleanedOnce }
{}

/// So does the code, in one scope.
pub fn law_unwound()
    ensures { LawOfUnwound }
{}

/// And wherever it stands.
pub fn law_whole_unwound()
    ensures { LawOfWholeUnwound }
{}
