// The laws of exits that are sought, each as the contract of a function that does nothing.
ghost use Rattle.back_sought_exits.specs.Sought.{LawOfReturnsBySearch, LawOfGoesBySearch, LawOfReturnsToCaptured, LawOfGoesToCaptured, LawOfWholeReturns, LawOfWholeGoes};
ghost use Rattle.back_sought_exits.specs.Called.{LawOfTransferring, LawOfSeeking, LawOfReturns, LawOfGoes};

/// A `return-from` an own block that is sought.
pub fn law_returns_by_search()
    ensures { LawOfReturnsBySearch }
{}

/// A `go` to an own tagbody that is sought.
pub fn law_goes_by_search()
    ensures { LawOfGoesBySearch }
{}

/// A `return-from` a block that was captured.
pub fn law_returns_to_captured()
    ensures { LawOfReturnsToCaptured }
{}

/// A `go` to a tagbody that was captured.
pub fn law_goes_to_captured()
    ensures { LawOfGoesToCaptured }
{}

/// A `return-from`, wherever it stands and however its exit may be left.
pub fn law_whole_returns()
    ensures { LawOfWholeReturns }
{}

/// A `go`, wherever it stands and however its exit may be left.
pub fn law_whole_goes()
    ensures { LawOfWholeGoes }
{}

/// The routine of transfers goes to a record, wherever it is called.
pub fn law_transferring()
    ensures { LawOfTransferring }
{}

/// The routine that leaves by a number finds what the meaning finds.
pub fn law_seeking()
    ensures { LawOfSeeking }
{}

/// A `return-from`, where new conditions are signalled as they are meant.
pub fn law_returns()
    ensures { LawOfReturns }
{}

/// A `go`, where new conditions are signalled as they are meant.
pub fn law_goes()
    ensures { LawOfGoes }
{}
