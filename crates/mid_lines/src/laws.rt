// The laws of lines, as the contracts of functions that do nothing.

ghost use Rattle.mid_lines.specs.LineLaw.{LawOfLines, LawOfLineEnds, LawOfLinePrinting, LawOfWeightedEnds, LawOfWeightedPrinting, LawOfLinesThere};
ghost use Rattle.mid_lines.specs.StackLaw.{LawOfStack};
ghost use Rattle.mid_lines.specs.StaticRecords.{LawOfRecords, LawOfStandingRecords};
ghost use Rattle.mid_lines.specs.LinesChecked.{LawOfForm};

/// Whatever the levels and turns, the machine of a program's lines comes to the end that a run of the program reaches, with the
/// same arena, output, input and cost; and where the run ends for want of levels or turns, it comes to a stage with all these.
pub fn law_lines()
    ensures { LawOfLines }
{}

/// The end to which the machine comes in some steps is the one that the program reaches with as many levels and turns.
pub fn law_line_ends()
    ensures { LawOfLineEnds }
{}

/// What the machine has printed after some steps is a beginning of what the program prints with as many levels and turns.
pub fn law_line_printing()
    ensures { LawOfLinePrinting }
{}

/// The end to which the machine comes in some steps is the one that the program reaches with as many levels and turns as these steps have
/// calls and jumps backwards.
pub fn law_weighted_ends()
    ensures { LawOfWeightedEnds }
{}

/// What the machine has printed after some steps is a beginning of what the program prints with as many levels and turns as these steps
/// have calls and jumps backwards.
pub fn law_weighted_printing()
    ensures { LawOfWeightedPrinting }
{}

/// At a stage after which a run is not stuck, the line of the activation that runs is there, and so is the procedure that is entered.
pub fn law_lines_there()
    ensures { LawOfLinesThere }
{}

/// At each stage of a run of lines, the blocks of the arena are those of the activations that stand: of each its control records, its
/// frame, and outside it the blocks of its caller.
pub fn law_stack()
    ensures { LawOfStack }
{}

/// The records that stand at the lines of a tree go along with these lines: the same stand at the lines to which a line leads, one more behind
/// one that lays, and one less behind one that gives back; at a landing its record stands, and those outside it.
pub fn law_records()
    ensures { LawOfRecords }
{}

/// Records that go along with the lines of a program are those of the activations that stand, at each stage of a run.
pub fn law_standing_records()
    ensures { LawOfStandingRecords }
{}

/// The lines of a program in form are in form: registers, constants, offsets, blocks, lines and calls.
pub fn law_form()
    ensures { LawOfForm }
{}
