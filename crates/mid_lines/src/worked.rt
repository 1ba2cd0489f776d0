// Worked programs: what the lines of some programs that are written out do, as the contracts of functions that do nothing.

ghost use Rattle.mid_lines.specs.Worked.{PrintingLines, Printed, Called, CutAndLanded, PassedTheInner, FellOut, CutNowhere, SwitchingLines, Switched, Lent, CutToLent};

/// Programs of a loop and of a call have these lines, and do what the trees do.
pub fn worked_lines()
    ensures printing_lines { PrintingLines }
    ensures printed { Printed }
    ensures called { Called }
{}

/// So do programs of control records and cuts.
pub fn worked_landings()
    ensures cut_and_landed { CutAndLanded }
    ensures passed_the_inner { PassedTheInner }
    ensures fell_out { FellOut }
    ensures cut_nowhere { CutNowhere }
{}

/// So do programs of switches, and of blocks that are lent.
pub fn worked_switches_and_lent()
    ensures switching_lines { SwitchingLines }
    ensures switched { Switched }
    ensures lent { Lent }
    ensures cut_to_lent { CutToLent }
{}
