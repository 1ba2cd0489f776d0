// The laws of places, as the contracts of functions that do nothing.

ghost use Rattle.back_places.specs.Trivial.{LawOfOwnSlots};

/// The trivial allocation is good: with each register in a slot of its own, facts flow along all lines.
pub fn law_trivial()
    ensures { LawOfOwnSlots }
{}
