// Jumps written at lines that stand.

ghost use Rattle.std.specs.Prelude.{◌≡◌, ◌<◌, length, slice_index, EachIndex};
ghost use Rattle.mid_lines.specs.Flattened.{jumps_written};

use crate::line::{Line, LineList, TargetList};

/// Writes a jump to the end at each of these lines.
pub fn write_jumps(lines: &mut LineList, jumps: &TargetList, end: usize)
    requires { EachIndex jumps.now (λ k. slice_index jumps.now k < length lines.old) }
    ensures { lines.new ≡ jumps_written jumps.now end lines.old }
{
    for jump in jumps.as_slice() {
        lines.replace(*jump, Line::Jump(end));
    }
}
