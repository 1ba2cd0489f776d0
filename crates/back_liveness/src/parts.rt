// The lines of an interval at which a register is held, in parts.

ghost use Rattle.std.specs.Prelude.{◌≡◌, ◌≤◌, ◌<◌, ◌+◌, ◌∷◌, [], ℕ, true, length, slice_get, slice_index, Some, IfOk, OnOk};
ghost use Rattle.back_liveness.specs.declared.step.Step.{Step};
ghost use Rattle.back_liveness.specs.Liveness.{IsWithin, have_line};
ghost use Rattle.back_liveness.specs.Parts.{run_with, parts_with};
ghost use Rattle.back_liveness.specs.Settled.{is_marked};

use crate::step::{Interval, PartList, StepList};
use base::NoMemory;
use mid_code::Register;
use std::alloc::Global;

/// An interval in one part.
pub fn in_one(alloc: Global, interval: Interval) -> Result<PartList, NoMemory>
    ensures { IfOk result (λ parts. parts ≡ interval ∷ []) }
{
    let mut parts = PartList::new(alloc);
    parts.push(interval)?;
    Ok(parts)
}

/// The parts of the interval of a register: all lines up to the last one from which one comes back to a marked line, from each of these on, up to a
/// highest; and all behind lines that write the register.
pub fn parts_of(
    alloc: Global,
    steps: &StepList,
    latest: &[usize],
    register: Register,
    marks: &[bool],
    high: usize,
    interval: Interval,
) -> Result<PartList, NoMemory>
    requires { length latest.now ≡ length marks.now }
    ensures marked { IfOk result (λ parts. (h line : ℕ) → interval.from ≤ h → h ≤ high → is_marked marks.now h ≡ true → h ≤ line
        → line ≤ slice_index latest.now h → line ≤ interval.to → have_line parts line ≡ true) }
    ensures written { IfOk result (λ parts. (line : ℕ) (s : Step) → slice_get steps.now line ≡ Some s → s.written ≡ Some register
        → IsWithin (Some interval) (line + 1) → have_line parts (line + 1) ≡ true) }
    ensures within { IfOk result (λ parts. (line : ℕ) → have_line parts line ≡ true → IsWithin (Some interval) line) }
{
    if interval.to < interval.from || marks.len() <= interval.to {
        return in_one(alloc, interval);
    }
    let mut parts = PartList::new(alloc);
    let mut run = None;
    let mut reach = 0;
    for line in interval.from..interval.to + 1 {
        reach = reached(latest, marks, high, line, reach);
        let is_held = is_held_at(steps, register, line, reach);
        run = with_line(&mut parts, run, line, is_held)?;
    }
    if let Some(from) = run {
        parts.push(Interval {
            from,
            to: interval.to,
        })?;
    }
    Ok(parts)
}

// The last line that is reached, with the loop of a line more.
fn reached(latest: &[usize], marks: &[bool], high: usize, line: usize, reach: usize) -> usize
    requires latest { line < length latest.now }
    requires marks { line < length marks.now }
    ensures kept { reach ≤ result }
    ensures marked { line ≤ high → is_marked marks.now line ≡ true → slice_index latest.now line ≤ result }
{
    if line <= high && marks[line] {
        reach.max(latest[line])
    } else {
        reach
    }
}

// Whether a line is reached, or behind one that writes the register.
fn is_held_at(steps: &StepList, register: Register, line: usize, reach: usize) -> bool
    ensures reached { line ≤ reach → result ≡ true }
    ensures written { (k : ℕ) (s : Step) → slice_get steps.now k ≡ Some s → s.written ≡ Some register → k + 1 ≡ line → result ≡ true }
{
    if line <= reach {
        return true;
    }
    is_behind_write(steps, register, line)
}

// Whether the line before one writes the register.
fn is_behind_write(steps: &StepList, register: Register, line: usize) -> bool
    ensures { (k : ℕ) (s : Step) → slice_get steps.now k ≡ Some s → s.written ≡ Some register → k + 1 ≡ line → result ≡ true }
{
    if line == 0 {
        return false;
    }
    match steps.get(line - 1) {
        Some(step) => match step.written {
            Some(written) => written == register,
            None => false,
        },
        None => false,
    }
}

// The run goes on, begins, or ends before a line.
fn with_line(
    parts: &mut PartList,
    run: Option<usize>,
    line: usize,
    is_held: bool,
) -> Result<Option<usize>, NoMemory>
    ensures parts { OnOk result (parts.new ≡ parts_with parts.old run line is_held) }
    ensures run { IfOk result (λ next. next ≡ run_with run line is_held) }
{
    match run {
        Some(from) => {
            if is_held {
                Ok(Some(from))
            } else {
                parts.push(Interval {
                    from,
                    to: line.saturating_sub(1),
                })?;
                Ok(None)
            }
        }
        None => { if is_held { Ok(Some(line)) } else { Ok(None) } }
    }
}
