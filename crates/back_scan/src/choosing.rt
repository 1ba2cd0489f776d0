// Which place an interval gets: a value register that is free where it begins, or else a slot.

ghost use Rattle.std.specs.Prelude.{◌≡◌, ◌≢◌, ◌≤◌, ◌<◌, ◌+◌, ℕ, true, false, length, slice_index_or, Some, None, IfOk, MatchOption, MatchBool};
ghost use Rattle.back_scan.specs.Spots.{Allows};
ghost use Rattle.back_scan.specs.Scanned.{IsTaken, IsFree, IsLater, taken_of};

use crate::spot::Wish;

/// A value register that is free from the line on and that may be had, one of them tried first; none where all of those are taken at it.
pub fn free_register(
    taken: &[Option<usize>],
    wish: Wish,
    first: Option<usize>,
    line: usize,
) -> Option<usize>
    requires { 14 ≤ length taken.now }
    ensures { MatchOption result ((r : ℕ) → Allows wish r → IsTaken (taken_of taken.now r) line)
        (λ r. Allows wish r × IsFree (taken_of taken.now r) line) }
{
    match wish {
        Wish::Any => first_or_any(taken, first, line),
        Wish::Only(r) => only_if_free(taken, r, line),
        Wish::InSlot => None,
    }
}

fn first_or_any(taken: &[Option<usize>], first: Option<usize>, line: usize) -> Option<usize>
    requires { 14 ≤ length taken.now }
    ensures { MatchOption result ((r : ℕ) → r < 14 → IsTaken (taken_of taken.now r) line)
        (λ r. (r < 14) × IsFree (taken_of taken.now r) line) }
{
    match first {
        Some(r) => {
            if r < 14 && is_free(taken[r], line) {
                Some(r)
            } else {
                first_free(taken, line)
            }
        }
        None => first_free(taken, line),
    }
}

fn first_free(taken: &[Option<usize>], line: usize) -> Option<usize>
    requires { 14 ≤ length taken.now }
    ensures { MatchOption result ((r : ℕ) → r < 14 → IsTaken (taken_of taken.now r) line)
        (λ r. (r < 14) × IsFree (taken_of taken.now r) line) }
{
    for r in 0..14 {
        if is_free(taken[r], line) {
            return Some(r);
        }
    }
    None
}

fn only_if_free(taken: &[Option<usize>], only: usize, line: usize) -> Option<usize>
    requires { 14 ≤ length taken.now }
    ensures { MatchOption result ((r : ℕ) → (r < 14) × (r ≡ only) → IsTaken (taken_of taken.now r) line)
        (λ r. ((r < 14) × (r ≡ only)) × IsFree (taken_of taken.now r) line) }
{
    if only < 14 && is_free(taken[only], line) {
        Some(only)
    } else {
        None
    }
}

/// Whether a place that is taken up to a line is free from another one on.
pub fn is_free(taken: Option<usize>, line: usize) -> bool
    ensures { MatchBool result (IsFree taken line) (IsTaken taken line) }
{
    match taken {
        None => true,
        Some(last) => last < line,
    }
}

/// The later of two last lines.
pub fn later(taken: Option<usize>, to: usize) -> usize
    ensures { IsLater taken to result }
{
    match taken {
        None => to,
        Some(last) => last.max(to),
    }
}
