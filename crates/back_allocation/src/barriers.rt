// Lines at which registers that are alive have to outlast calls: those behind calls, and landings.

ghost use Rattle.std.specs.Prelude.{◌≡◌, ◌≢◌, ◌≤◌, ◌<◌, ◌+◌, ◌^◌, ◌==◌, ◌⊎◌, ℕ, true, false, length, slice_get, slice_index_or, Some, IfOk};
ghost use Rattle.std.specs.List.{list_any};
ghost use Rattle.back_liveness.specs.Barriers.{Crosses, barrier_at};
ghost use Rattle.mid_lines.specs.declared.line.Line.{Line};
ghost use Rattle.back_allocation.specs.LineSteps.{landings_in};
ghost use Rattle.back_allocation.specs.Barriers.{call_result, may_cut, AreBarriers};
ghost use Rattle.back_allocation.specs.Slots.{IsPlain, ArePlain, OnlyOutlasting};

use crate::steps::LandingsList;
use back_liveness::Barrier;
use base::NoMemory;
use mid_code::{Operation, Register};
use mid_lines::{Line, LineList, TargetList};
use std::alloc::Global;

/// The barriers at lines, and at the end behind them, where the records that stand have these landings.
pub fn barriers_of(
    alloc: Global,
    lines: &LineList,
    landings: &LandingsList,
) -> Result<Vec<Barrier>, NoMemory>
    requires { length lines.now < 2 ^ 62 }
    ensures barriers { IfOk result (λ barriers. AreBarriers lines.now (landings_in landings.now) (length lines.now) barriers.items) }
    ensures only { IfOk result (λ barriers. OnlyOutlasting lines.now (landings_in landings.now) barriers.items) }
    ensures long { IfOk result (λ barriers. length barriers.items ≡ length lines.now + 1) }
{
    let mut barriers = vec![in alloc; Barrier::Open; lines.len() + 1]?;
    close_lines(barriers.as_mut_slice(), lines, landings);
    Ok(barriers)
}

fn close_lines(barriers: &mut [Barrier], lines: &LineList, landings: &LandingsList)
    requires { length lines.now < 2 ^ 62 }
    ensures barriers { AreBarriers lines.now (landings_in landings.now) (length lines.now) barriers.new }
    ensures plain { ArePlain barriers.old → ArePlain barriers.new }
    ensures only { ArePlain barriers.old → OnlyOutlasting lines.now (landings_in landings.now) barriers.old
        → OnlyOutlasting lines.now (landings_in landings.now) barriers.new }
{
    for line in 0..lines.len() {
        close_line(barriers, lines, landings, line);
    }
}

// The barriers of a line.
fn close_line(barriers: &mut [Barrier], lines: &LineList, landings: &LandingsList, line: usize)
    requires { line < 2 ^ 62 }
    ensures kept { (x v : ℕ) → Crosses (barrier_at barriers.old x) v → Crosses (barrier_at barriers.new x) v }
    ensures call { (x : Line) (to v : ℕ) → slice_get lines.now line ≡ Some x → call_result x ≡ Some to → v ≢ to
        → Crosses (barrier_at barriers.new (line + 1)) v }
    ensures landed { (x : Line) (t v : ℕ) → slice_get lines.now line ≡ Some x → may_cut x ≡ true
        → list_any (λ a. a == t) (landings_in landings.now line) ≡ true → Crosses (barrier_at barriers.new t) v }
    ensures plain { ArePlain barriers.old → ArePlain barriers.new }
    ensures only { ArePlain barriers.old → OnlyOutlasting lines.now (landings_in landings.now) barriers.old
        → OnlyOutlasting lines.now (landings_in landings.now) barriers.new }
{
    match lines.get(line) {
        Some(x) => {
            close_result(barriers, line + 1, result_of_call(x));
            close_landings(barriers, landings, line, cuts(x))
        }
        None => {}
    }
}

// The register that has the result of a call, if the line is one.
fn result_of_call(line: &Line) -> Option<Register>
    ensures { result ≡ call_result line.now }
{
    match line {
        Line::Do(Operation::Call { to, .. }) => Some(*to),
        _ => None,
    }
}

// Whether a cut may go from the line to landings of its activation.
fn cuts(line: &Line) -> bool
    ensures { result ≡ may_cut line.now }
{
    match line {
        Line::Do(Operation::Call { .. }) => true,
        Line::Cut { .. } => true,
        _ => false,
    }
}

fn close_result(barriers: &mut [Barrier], line: usize, call: Option<Register>)
    ensures kept { (x v : ℕ) → Crosses (barrier_at barriers.old x) v → Crosses (barrier_at barriers.new x) v }
    ensures call { (to v : ℕ) → call ≡ Some to → v ≢ to → Crosses (barrier_at barriers.new line) v }
    ensures plain { ArePlain barriers.old → ArePlain barriers.new }
    ensures only { ArePlain barriers.old → (x v : ℕ) → Crosses (barrier_at barriers.new x) v
        → Crosses (barrier_at barriers.old x) v ⊎ ((x ≡ line) × ((to : ℕ) × (call ≡ Some to) × (v ≢ to))) }
{
    match call {
        Some(to) => close_but(barriers, line, to),
        None => {}
    }
}

fn close_but(barriers: &mut [Barrier], line: usize, to: Register)
    ensures kept { (x v : ℕ) → Crosses (barrier_at barriers.old x) v → Crosses (barrier_at barriers.new x) v }
    ensures closed { (v : ℕ) → v ≢ to → Crosses (barrier_at barriers.new line) v }
    ensures plain { ArePlain barriers.old → ArePlain barriers.new }
    ensures only { ArePlain barriers.old → (x v : ℕ) → Crosses (barrier_at barriers.new x) v
        → Crosses (barrier_at barriers.old x) v ⊎ ((x ≡ line) × (v ≢ to)) }
{
    if line < barriers.len() {
        let closed = all_but(barriers[line], to);
        barriers[line] = closed;
    }
}

fn all_but(barrier: Barrier, to: Register) -> Barrier
    ensures kept { (v : ℕ) → Crosses barrier v → Crosses result v }
    ensures closed { (v : ℕ) → v ≢ to → Crosses result v }
    ensures plain { IsPlain barrier → IsPlain result }
    ensures only { IsPlain barrier → (v : ℕ) → Crosses result v → Crosses barrier v ⊎ (v ≢ to) }
{
    match barrier {
        Barrier::Open => Barrier::ClosedBut(to),
        Barrier::Closed => Barrier::Closed,
        Barrier::ClosedBut(register) => {
            if register == to {
                Barrier::ClosedBut(to)
            } else {
                Barrier::Closed
            }
        }
        Barrier::ClosedAmong { .. } => Barrier::Closed,
    }
}

fn close_landings(barriers: &mut [Barrier], landings: &LandingsList, line: usize, may_cut: bool)
    ensures kept { (x v : ℕ) → Crosses (barrier_at barriers.old x) v → Crosses (barrier_at barriers.new x) v }
    ensures landed { (t v : ℕ) → may_cut ≡ true → list_any (λ a. a == t) (landings_in landings.now line) ≡ true
        → Crosses (barrier_at barriers.new t) v }
    ensures plain { ArePlain barriers.old → ArePlain barriers.new }
    ensures only { (x v : ℕ) → Crosses (barrier_at barriers.new x) v
        → Crosses (barrier_at barriers.old x) v ⊎ ((may_cut ≡ true) × (list_any (λ a. a == x) (landings_in landings.now line) ≡ true)) }
{
    if may_cut {
        match landings.get(line) {
            Some(here) => close_all(barriers, here.as_slice()),
            None => {}
        }
    }
}

fn close_all(barriers: &mut [Barrier], landings: &[usize])
    ensures kept { (x v : ℕ) → Crosses (barrier_at barriers.old x) v → Crosses (barrier_at barriers.new x) v }
    ensures landed { (t v : ℕ) → list_any (λ a. a == t) landings.now ≡ true → Crosses (barrier_at barriers.new t) v }
    ensures plain { ArePlain barriers.old → ArePlain barriers.new }
    ensures only { (x v : ℕ) → Crosses (barrier_at barriers.new x) v
        → Crosses (barrier_at barriers.old x) v ⊎ (list_any (λ a. a == x) landings.now ≡ true) }
{
    for landing in landings {
        close_at(barriers, *landing);
    }
}

fn close_at(barriers: &mut [Barrier], line: usize)
    ensures kept { (x v : ℕ) → Crosses (barrier_at barriers.old x) v → Crosses (barrier_at barriers.new x) v }
    ensures closed { (v : ℕ) → Crosses (barrier_at barriers.new line) v }
    ensures plain { ArePlain barriers.old → ArePlain barriers.new }
    ensures only { (x v : ℕ) → Crosses (barrier_at barriers.new x) v → Crosses (barrier_at barriers.old x) v ⊎ (x ≡ line) }
{
    if line < barriers.len() {
        barriers[line] = Barrier::Closed;
    }
}
