// The laws, each as the contract of a function that does nothing.
ghost use Rattle.back_runs.specs.Runs.{LawOfRuns};
ghost use Rattle.back_runs.specs.Ends.{LawOfGoingOn};
ghost use Rattle.back_runs.specs.MachineRuns.{LawOfKnownSteps, LawOfMachineRuns};
ghost use Rattle.back_runs.specs.ProgramRuns.{LawOfWeighing, LawOfKnownRuns, LawOfProgramRuns};
ghost use Rattle.back_runs.specs.Laws.{LawOfFirst, LawOfStart, LawOfEnd, LawOfImageRuns};

/// Where decisions are good, so many steps of lines from a stage that the machine is at are matched by a run of instructions, in no more
/// than these steps cost, and in no fewer than they weigh.
pub fn law_runs()
    ensures { LawOfRuns }
{}

/// A run of the machine that has ended as lines do, and does not wait, stays so: more instructions change nothing.
pub fn law_going_on()
    ensures { LawOfGoingOn }
{}

/// Where no step of lines behind fewer than so many calls and jumps backwards leads to where nothing is known of the machine, no step does
/// that the machine begins within so many instructions.
pub fn law_known_steps()
    ensures { LawOfKnownSteps }
{}

/// What so many instructions have done: what they have printed is a beginning of what lines have printed at some stage that comes after steps
/// of no more weight, and where they have ended, lines have ended so.
pub fn law_machine_runs()
    ensures { LawOfMachineRuns }
{}

/// The lines of a program of middle code come to their end, or their steps weigh more than any number.
pub fn law_weighing()
    ensures { LawOfWeighing }
{}

/// Where a program, with at least so many levels and turns, is not stuck, its lines are not in so many instructions of the machine.
pub fn law_known_runs()
    ensures { LawOfKnownRuns }
{}

/// Instructions do what the program means: what they print is a beginning of what the program prints with at least as many levels and turns;
/// where they have ended, the program has, in the same way; and they end so in one more than the program costs, or wait by then where it has
/// exhausted the serial numbers.
pub fn law_program_runs()
    ensures { LawOfProgramRuns }
{}

/// The state whose arena has the words laid beside the code, and nothing else, is one with which a run of the image begins.
pub fn law_first()
    ensures { LawOfFirst }
{}

/// From the image's first instruction the machine comes in two to where the first procedure is entered.
pub fn law_start()
    ensures { LawOfStart }
{}

/// Behind the first procedure the machine halts in three instructions, with the word in register 12.
pub fn law_end()
    ensures { LawOfEnd }
{}

/// An image does what its program means, in two instructions more.
pub fn law_image_runs()
    ensures { LawOfImageRuns }
{}
