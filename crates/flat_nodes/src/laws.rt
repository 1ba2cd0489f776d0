// The law of the nodes of flat programs, as the contract of a function that does nothing.

ghost use Rattle.flat_nodes.specs.Laws.{LawOfFlatProgramNodes};

/// A program that is made flat has as many nodes as before.
pub fn law_flat_program_nodes()
    ensures { LawOfFlatProgramNodes }
{}
