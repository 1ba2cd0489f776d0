// The interval of one register: its lines are marked backwards, from its last point on.

ghost use Rattle.std.specs.Prelude.{◌≡◌, ◌≤◌, ◌<◌, ◌+◌, ◌-◌, ◌^◌, ◌==◌, ◌⊎◌, ℕ, true, false, length, slice_get, slice_index, Some, IsTrue, IfOk};
ghost use Rattle.std.specs.List.{list_any};
ghost use Rattle.back_liveness.specs.declared.step.Step.{Step};
ghost use Rattle.back_liveness.specs.Liveness.{is_read, goes_aside, IsWithin, IsEndOf, IsWanted, IsCrossedWithin};
ghost use Rattle.back_liveness.specs.Ahead.{is_written, alive_ahead};
ghost use Rattle.back_liveness.specs.Heads.{AreHeads, AreSources, AreFloors, AreRoofs};
ghost use Rattle.back_liveness.specs.Barriers.{Crosses, barrier_at, TellsLoop};
ghost use Rattle.back_liveness.specs.Settled.{is_marked, Settled, CrossingsTold, OnlyWithin, AreAlive, IsMarkedBy};
ghost use Rattle.back_liveness.specs.Points.{AreParts, IsPoint};
ghost use Rattle.back_liveness.specs.Closed.{IsWrittenBefore, IsClosed};

use crate::barrier::{Barrier, crosses};
use crate::heads::Heads;
use crate::parts::{in_one, parts_of};
use crate::step::{Interval, PartList, StepList};
use base::NoMemory;
use mid_code::Register;
use std::alloc::Global;

/// The interval of a register, its parts, and whether a barrier crosses it at a line at which it is alive.
#[derive(Drop)]
pub struct Lived {
    pub interval: Interval,
    pub parts: PartList,
    pub crossed: bool,
}

// Of an interval that is this long or shorter the parts are told, though it is known that it is the right one; and in one that is longer than that
// a register is taken for crossed where a barrier crosses its interval, so that time is in proportion to lines and registers.
const SHORT: usize = 64;

const LONG: usize = 1024;

/// What is known of a register: the first line that is still to be looked at, the first and the last line of its interval, and whether a
/// barrier crosses it.
#[derive(Clone, Copy)]
pub struct Life {
    pub need: usize,
    pub from: usize,
    pub to: usize,
    pub crossed: bool,
}

/// The interval of a register whose points are in one, with all lines at which it is alive along paths forwards, and from heads of
/// loops at which it is alive up to the last lines from which one comes back to them; its parts, which have these lines and those behind lines
/// that write the register; and whether a barrier at one of these lines crosses it.
pub fn life_of(
    alloc: Global,
    steps: &StepList,
    heads: &Heads,
    barriers: &[Barrier],
    register: Register,
    points: Interval,
    marks: &mut [bool],
) -> Result<Lived, NoMemory>
    requires heads { AreHeads steps.now heads.now.earliest.items heads.now.latest.items }
    requires floors { AreFloors heads.now.earliest.items heads.now.floors.items }
    requires roofs { AreRoofs heads.now.latest.items heads.now.roofs.items }
    requires room { length steps.now < 2 ^ 62 }
    requires marks { length marks.old ≡ length steps.now + 1 }
    requires points { (line : ℕ) (s : Step) → slice_get steps.now line ≡ Some s → is_read s register ≡ true → IsWithin (Some points) line }
    requires ends { points.to ≤ length steps.now }
    requires sources { AreSources steps.now heads.now.earliest.items heads.now.latest.items }
    requires only { (x : ℕ) → IsEndOf (Some points) x → IsPoint steps.now register x }
    ensures ahead { IfOk result (λ found. (line : ℕ) → alive_ahead steps.now register line ≡ true
        → (found.interval.from ≤ line) × (slice_index heads.now.latest.items line ≤ found.interval.to)) }
    ensures points { IfOk result (λ found. (line : ℕ) → IsWithin (Some points) line → IsWithin (Some found.interval) line) }
    ensures parts { IfOk result (λ found. AreParts steps.now heads.now.latest.items register found.interval found.parts) }
    ensures crossed { IfOk result (λ found. (line : ℕ) → alive_ahead steps.now register line ≡ true
        → TellsLoop barriers.now heads.now.latest.items register line found.crossed) }
    ensures only { IfOk result (λ found. found.crossed ≡ true → IsCrossedWithin barriers.now (Some found.interval) register) }
    ensures ends { IfOk result (λ found. found.interval.to ≤ length steps.now) }
    ensures tight { IfOk result (λ found. (x : ℕ) → IsEndOf (Some found.interval) x → IsWanted steps.now register x) }
{
    if is_closed(
        steps,
        heads.floors.as_slice(),
        heads.roofs.as_slice(),
        register,
        points,
    ) {
        if points.from + SHORT < points.to {
            let crossed = crosses(points, barriers, register);
            if !crossed || points.from + LONG < points.to {
                return Ok(Lived {
                    interval: points,
                    parts: in_one(alloc, points)?,
                    crossed,
                });
            }
        }
    }
    let mut life = Life {
        need: points.from,
        from: points.from,
        to: points.to,
        crossed: false,
    };
    let mut line = points.to + 1;
    while life.need < line {
        line -= 1;
        life = look(
            steps,
            heads.earliest.as_slice(),
            heads.latest.as_slice(),
            barriers,
            register,
            points.to,
            marks,
            life,
            line,
        );
    }
    let interval = Interval {
        from: life.from,
        to: life.to,
    };
    let latest = heads.latest.as_slice();
    Ok(Lived {
        interval,
        parts: parts_of(alloc, steps, latest, register, marks, points.to, interval)?,
        crossed: life.crossed,
    })
}

// Whether an interval begins behind a line that writes the register, or at the first line, and no line goes into it from before it, nor
// from behind it.
fn is_closed(
    steps: &StepList,
    floors: &[usize],
    roofs: &[usize],
    register: Register,
    points: Interval,
) -> bool
    requires floors { length floors.now ≡ length steps.now + 1 }
    requires roofs { length roofs.now ≡ length steps.now + 1 }
    requires room { length steps.now < 2 ^ 62 }
    ensures { result ≡ true → IsClosed steps.now floors.now roofs.now register points }
{
    points.from <= points.to
        && points.to <= steps.len()
        && points.from <= floors[points.from]
        && roofs[points.to] <= points.to
        && is_written_before(steps, register, points.from)
}

// Whether the line before one writes the register, if there is one.
fn is_written_before(steps: &StepList, register: Register, line: usize) -> bool
    ensures { result ≡ true → IsWrittenBefore steps.now register line }
{
    if line == 0 {
        return true;
    }
    match steps.get(line - 1) {
        Some(step) => writes(step.written, register),
        None => true,
    }
}

// Marks one line more.
fn look(
    steps: &StepList,
    earliest: &[usize],
    latest: &[usize],
    barriers: &[Barrier],
    register: Register,
    high: usize,
    marks: &mut [bool],
    life: Life,
    line: usize,
) -> Life
    requires earliest { length earliest.now ≡ length marks.old }
    requires latest { length latest.now ≡ length marks.old }
    requires high { high < length marks.old }
    requires line { line ≤ high }
    requires settled { Settled steps.now earliest.now latest.now register marks.old high life (line + 1) }
    requires crossings { CrossingsTold barriers.now latest.now register marks.old high life.crossed (line + 1) }
    ensures settled { Settled steps.now earliest.now latest.now register marks.new high result line }
    ensures crossings { CrossingsTold barriers.now latest.now register marks.new high result.crossed line }
    ensures need { result.need ≤ life.need }
    ensures from { result.from ≤ life.from }
    ensures to { life.to ≤ result.to }
    ensures ends { (n : ℕ) → life.to ≤ n → slice_index latest.now line ≤ n → result.to ≤ n }
    ensures alive { AreAlive steps.now register marks.old high (line + 1) → AreAlive steps.now register marks.new high line }
    ensures tight { is_marked marks.new line ≡ false → (result.from ≡ life.from) × (result.to ≡ life.to) }
    ensures from_is { (result.from ≡ life.from) ⊎ (result.from ≡ line) }
    ensures to_is { (result.to ≡ life.to) ⊎ (result.to ≡ slice_index latest.now line) }
    ensures only { OnlyWithin barriers.now register life → OnlyWithin barriers.now register result }
{
    let is_alive = is_alive(steps, marks, register, line, high);
    marks[line] = is_alive;
    with_line(
        life,
        is_alive,
        barriers,
        register,
        line,
        earliest[line],
        latest[line],
    )
}

// Whether that was known, or a barrier at some line from one to a last one crosses the register.
fn is_crossed(
    known: bool,
    line: usize,
    last: usize,
    barriers: &[Barrier],
    register: Register,
) -> bool
    ensures known { known ≡ true → result ≡ true }
    ensures crossed { (x : ℕ) → line ≤ x → x ≤ last → Crosses (barrier_at barriers.now x) register → result ≡ true }
    ensures only { result ≡ true → (known ≡ true) ⊎ IsCrossedWithin barriers.now (Some (record { from = line; to = last })) register }
{
    if known {
        return true;
    }
    let lines = Interval {
        from: line,
        to: last,
    };
    crosses(lines, barriers, register)
}

// The life with a line more, if it is marked.
fn with_line(
    life: Life,
    is_marked: bool,
    barriers: &[Barrier],
    register: Register,
    line: usize,
    first: usize,
    last: usize,
) -> Life
    ensures need { result.need ≤ life.need }
    ensures from { result.from ≤ life.from }
    ensures to { life.to ≤ result.to }
    ensures ends { (n : ℕ) → life.to ≤ n → last ≤ n → result.to ≤ n }
    ensures tight { is_marked ≡ false → (result.from ≡ life.from) × (result.to ≡ life.to) }
    ensures from_is { (result.from ≡ life.from) ⊎ (result.from ≡ line) }
    ensures to_is { (result.to ≡ life.to) ⊎ (result.to ≡ last) }
    ensures known { life.crossed ≡ true → result.crossed ≡ true }
    ensures crossed { is_marked ≡ true → (x : ℕ) → line ≤ x → x ≤ last → Crosses (barrier_at barriers.now x) register → result.crossed ≡ true }
    ensures only { OnlyWithin barriers.now register life → OnlyWithin barriers.now register result }
    ensures marked { is_marked ≡ true → (result.need ≤ line - 1) × (result.need ≤ first) × (result.from ≤ line) × (last ≤ result.to) }
{
    if is_marked {
        Life {
            need: life.need.min(first).min(line.saturating_sub(1)),
            from: life.from.min(line),
            to: life.to.max(last),
            crossed: is_crossed(life.crossed, line, last, barriers, register),
        }
    } else {
        life
    }
}

// Whether the register is alive at a line, by the marks of the lines behind it up to a last one.
fn is_alive(steps: &StepList, marks: &[bool], register: Register, line: usize, high: usize) -> bool
    requires high { high < length marks.now }
    requires line { line ≤ high }
    ensures reads { (s : Step) → slice_get steps.now line ≡ Some s → is_read s register ≡ true → result ≡ true }
    ensures behind { (s : Step) → line < high → slice_get steps.now line ≡ Some s → s.falls ≡ true → is_written s.written register ≡ false
        → is_marked marks.now (line + 1) ≡ true → result ≡ true }
    ensures aside { (t : ℕ) (s : Step) → line < t → t ≤ high → slice_get steps.now line ≡ Some s → goes_aside s t ≡ true
        → is_marked marks.now t ≡ true → result ≡ true }
    ensures only { result ≡ true → IsMarkedBy steps.now register marks.now high line }
{
    let Some(step) = steps.get(line) else {
        return false;
    };
    if step.reads.as_slice().contains(&register) {
        return true;
    }
    if step.falls && line < high && marks[line + 1] && !writes(step.written, register) {
        return true;
    }
    any_marked(step.aside.as_slice(), marks, line, high)
}

fn writes(written: Option<Register>, register: Register) -> bool
    ensures { result ≡ is_written written register }
{
    match written {
        Some(r) => r == register,
        None => false,
    }
}

// Whether one of these lines is marked and stands behind a line, and not behind a last one.
fn any_marked(aside: &[usize], marks: &[bool], line: usize, high: usize) -> bool
    requires { high < length marks.now }
    ensures all { (t : ℕ) → list_any (λ a. a == t) aside.now ≡ true → line < t → t ≤ high → is_marked marks.now t ≡ true → result ≡ true }
    ensures only { result ≡ true → (t : ℕ) × (list_any (λ a. a == t) aside.now ≡ true) × (line < t) × (t ≤ high) × (is_marked marks.now t ≡ true) }
{
    for t in aside {
        if line < *t && *t <= high && marks[*t] {
            return true;
        }
    }
    false
}
