// The points of registers: the lines that read them, and those behind lines that write them.

ghost use Rattle.std.specs.Prelude.{◌≡◌, ◌≤◌, ◌<◌, ◌+◌, ◌^◌, ◌==◌, ◌⊎◌, ℕ, true, length, slice_get, slice_index, slice_index_or, Some, None, IfOk, OnOk};
ghost use Rattle.std.specs.List.{list_any};
ghost use Rattle.back_liveness.specs.declared.step.Interval.{Interval};
ghost use Rattle.back_liveness.specs.declared.step.Step.{Step};
ghost use Rattle.back_liveness.specs.Liveness.{is_read, IsWithin, IsCovered, IsEndOf};
ghost use Rattle.back_liveness.specs.Points.{ArePoints, EndsBy, EndBy, IsPoint, HasEndOr};

use crate::step::{Interval, StepList};
use base::NoMemory;
use mid_code::Register;
use std::alloc::Global;

/// For each of so many registers an interval with all its points, up to the end behind the last line; none where it has no point.
pub fn points_of(
    alloc: Global,
    steps: &StepList,
    registers: usize,
) -> Result<Vec<Option<Interval>>, NoMemory>
    requires { length steps.now < 2 ^ 62 }
    ensures count { IfOk result (λ hulls. length hulls.items ≡ registers) }
    ensures points { IfOk result (λ hulls. ArePoints steps.now (length steps.now) hulls.items) }
    ensures ends { IfOk result (λ hulls. EndBy (length steps.now) hulls.items) }
    ensures only { IfOk result (λ hulls. (v x : ℕ) → IsEndOf (slice_index_or hulls.items v None) x → IsPoint steps.now v x) }
{
    let mut hulls = vec![in alloc; None; registers]?;
    add_lines(&mut hulls, steps);
    Ok(hulls)
}

// The points of all lines.
fn add_lines(hulls: &mut [Option<Interval>], steps: &StepList)
    requires room { length steps.now < 2 ^ 62 }
    requires begun { EndBy (length steps.now) hulls.old }
    ensures points { ArePoints steps.now (length steps.now) hulls.new }
    ensures ends { EndBy (length steps.now) hulls.new }
    ensures only { (v x : ℕ) → HasEndOr hulls.old hulls.new v x (IsPoint steps.now v x) }
{
    for line in 0..steps.len() {
        add_line(hulls, steps, line);
    }
}

// The points of a line.
fn add_line(hulls: &mut [Option<Interval>], steps: &StepList, line: usize)
    requires { line < 2 ^ 62 }
    ensures kept { (v k : ℕ) → IsCovered hulls.old v k → IsCovered hulls.new v k }
    ensures reads { (v : ℕ) (s : Step) → v < length hulls.old → slice_get steps.now line ≡ Some s → is_read s v ≡ true → IsCovered hulls.new v line }
    ensures written { (v : ℕ) (s : Step) → v < length hulls.old → slice_get steps.now line ≡ Some s → s.written ≡ Some v
        → IsCovered hulls.new v (line + 1) }
    ensures ends { (n : ℕ) → line < n → EndBy n hulls.old → EndBy n hulls.new }
    ensures only { (v x : ℕ) → HasEndOr hulls.old hulls.new v x (IsPoint steps.now v x) }
{
    match steps.get(line) {
        Some(step) => {
            add_reads(hulls, step.reads.as_slice(), line);
            add_written(hulls, step.written, line + 1)
        }
        None => {}
    }
}

fn add_reads(hulls: &mut [Option<Interval>], reads: &[Register], line: usize)
    ensures kept { (v k : ℕ) → IsCovered hulls.old v k → IsCovered hulls.new v k }
    ensures added { (v : ℕ) → v < length hulls.old → list_any (λ r. r == v) reads.now ≡ true → IsCovered hulls.new v line }
    ensures ends { (n : ℕ) → line ≤ n → EndBy n hulls.old → EndBy n hulls.new }
    ensures only { (v x : ℕ) → HasEndOr hulls.old hulls.new v x ((list_any (λ r. r == v) reads.now ≡ true) × (x ≡ line)) }
{
    for register in reads {
        add_point(hulls, *register, line);
    }
}

fn add_written(hulls: &mut [Option<Interval>], written: Option<Register>, point: usize)
    ensures kept { (v k : ℕ) → IsCovered hulls.old v k → IsCovered hulls.new v k }
    ensures added { (v : ℕ) → v < length hulls.old → written ≡ Some v → IsCovered hulls.new v point }
    ensures ends { (n : ℕ) → point ≤ n → EndBy n hulls.old → EndBy n hulls.new }
    ensures only { (v x : ℕ) → HasEndOr hulls.old hulls.new v x ((written ≡ Some v) × (x ≡ point)) }
{
    match written {
        Some(register) => add_point(hulls, register, point),
        None => {}
    }
}

fn add_point(hulls: &mut [Option<Interval>], register: Register, point: usize)
    ensures kept { (v k : ℕ) → IsCovered hulls.old v k → IsCovered hulls.new v k }
    ensures added { register < length hulls.old → IsCovered hulls.new register point }
    ensures ends { (n : ℕ) → point ≤ n → EndBy n hulls.old → EndBy n hulls.new }
    ensures only { (v x : ℕ) → HasEndOr hulls.old hulls.new v x ((register ≡ v) × (x ≡ point)) }
{
    if register < hulls.len() {
        let more = widened(hulls[register], point);
        hulls[register] = Some(more);
    }
}

// The interval with a line more.
fn widened(interval: Option<Interval>, point: usize) -> Interval
    ensures kept { (k : ℕ) → IsWithin interval k → IsWithin (Some result) k }
    ensures added { IsWithin (Some result) point }
    ensures ends { (n : ℕ) → point ≤ n → EndsBy n interval → result.to ≤ n }
    ensures only { (x : ℕ) → IsEndOf (Some result) x → IsEndOf interval x ⊎ (x ≡ point) }
{
    match interval {
        None => Interval {
            from: point,
            to: point,
        },
        Some(i) => Interval {
            from: i.from.min(point),
            to: i.to.max(point),
        },
    }
}
