// Barriers: lines at which registers that are alive have to outlast something.

ghost use Rattle.std.specs.Prelude.{◌≡◌, ℕ, false, true, Some, MatchBool};
ghost use Rattle.back_liveness.specs.Barriers.{Crosses, barrier_at};
ghost use Rattle.back_liveness.specs.Liveness.{IsWithin, IsCrossedWithin};

use crate::step::Interval;
use mid_code::Register;

/// Which registers have to outlast something if they are alive at a line: none, all, all but the result of a call; or one register and those
/// from a number up to another, but the one that was written.
#[derive(Clone, Copy)]
pub enum Barrier {
    Open,
    Closed,
    ClosedBut(Register),
    ClosedAmong {
        register: Register,
        from: Register,
        to: Register,
        written: Register,
    },
}

/// Whether a barrier at some line of the interval crosses the register.
pub fn crosses(interval: Interval, barriers: &[Barrier], register: Register) -> bool
    ensures none { result ≡ false → (x : ℕ) → IsWithin (Some interval) x → Crosses (barrier_at barriers.now x) register → ⊥ }
    ensures some { result ≡ true → IsCrossedWithin barriers.now (Some interval) register }
{
    if interval.to < interval.from {
        return false;
    }
    if interval.to >= barriers.len() {
        return true;
    }
    for x in interval.from..interval.to + 1 {
        if is_crossed(barriers[x], register) {
            return true;
        }
    }
    false
}

fn is_crossed(barrier: Barrier, register: Register) -> bool
    ensures { MatchBool result (Crosses barrier register) (Crosses barrier register → ⊥) }
{
    match barrier {
        Barrier::Open => false,
        Barrier::Closed => true,
        Barrier::ClosedBut(to) => register != to,
        Barrier::ClosedAmong {
            register: one,
            from,
            to,
            written,
        } => register != written && (register == one || (from <= register && register < to)),
    }
}
