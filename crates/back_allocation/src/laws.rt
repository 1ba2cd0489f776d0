// The laws of allocations, as the contracts of functions that do nothing.

ghost use Rattle.back_allocation.specs.Allocated.{LawOfAllocated};
ghost use Rattle.back_allocation.specs.StandingLandings.{LawOfLandings};
ghost use Rattle.back_allocation.specs.TreePlaces.{LawOfPlaces, LawOfGoodPlaces};
ghost use Rattle.back_allocation.specs.ProgramPlaces.{LawOfFewerSlots, LawOfProgramPlaces};

/// Decisions by which each register has one place, apart from those of others that are alive at the same line, and outside of value
/// registers wherever a call or a cut passes it, are good but for positions.
pub fn law_allocated()
    ensures { LawOfAllocated }
{}

/// The lines of a tree: with places by which all registers stand well, and frames that are found past all records with a word for
/// each slot and one for the return address, facts flow along all lines and from all entries, and all places are within reach.
pub fn law_places()
    ensures { LawOfPlaces }
{}

/// With good positions, such decisions are good.
pub fn law_good_places()
    ensures { LawOfGoodPlaces }
{}

/// The landings that the lines of a tree tell are those of the records of the tree, at each line.
pub fn law_landings()
    ensures { LawOfLandings }
{}

/// Places that fit a program, procedure by procedure, are a choice for all of it: the decisions by them are good but for positions.
pub fn law_program_places()
    ensures { LawOfProgramPlaces }
{}

/// A frame that is found with a word for each register of a procedure is found with no more slots than it has registers.
pub fn law_fewer_slots()
    ensures { LawOfFewerSlots }
{}
