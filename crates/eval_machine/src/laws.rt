// What is true of all runs of the machine, as the contracts of functions that do nothing.

ghost use Rattle.eval_machine.specs.Law.{LawOfMachine, LawOfSteps};

/// The law of steps: a machine that has ended after some number of steps is the same after any other number of steps after
/// which it has ended.
pub fn law_steps()
    ensures { LawOfSteps }
{}

/// The law of the machine: for every flat program, input, number of levels and words the machine ends, and whenever it has
/// ended it has the end, the bytes, the input left, the units, the peak and the store that the program means.
pub fn law_machine()
    ensures { LawOfMachine }
{}
