// Windows: lines at which nothing stands in a value register, though something stands there before and behind them. A register that is held in
// windows alone may stand there too.

ghost use Rattle.std.specs.Prelude.{◌≡◌, ◌≤◌, ◌<◌, ◌⊎◌, ◌∷◌, ℕ, true, length, IfOk, IfSome, OnOk};
ghost use Rattle.back_liveness.specs.Liveness.{have_line};
ghost use Rattle.back_scan.specs.Spots.{Allows};
ghost use Rattle.back_scan.specs.Windows.{has_window, is_open, IsLineOf};

use crate::spot::Wish;
use back_liveness::Interval;
use base::NoMemory;
use std::alloc::Global;

/// Lines from one to another at which nothing stands in a value register, by its number.
#[derive(Clone, Copy)]
pub struct Window {
    pub number: usize,
    pub from: usize,
    pub to: usize,
}

// So many windows are kept; with more there would be a little less to share, and a scan that takes longer.
const MOST: usize = 64;

/// The value register that is tried first, if a register that has these parts may have any and there are windows for all of them.
pub fn register_open(
    windows: &[Window],
    wish: Wish,
    first: Option<usize>,
    own: &[Interval],
) -> Option<usize>
    ensures { IfSome result (λ r. Allows wish r × ((x : ℕ) → have_line own.now x ≡ true → is_open windows.now r x ≡ true)) }
{
    match (wish, first) {
        (Wish::Any, Some(number)) => open_if(windows, number, own),
        _ => None,
    }
}

fn open_if(windows: &[Window], number: usize, own: &[Interval]) -> Option<usize>
    ensures { IfSome result (λ r. (r < 14) × ((x : ℕ) → have_line own.now x ≡ true → is_open windows.now r x ≡ true)) }
{
    if number < 14 && fits(windows, number, own) {
        Some(number)
    } else {
        None
    }
}

// Whether each of the parts is in a window of the value register.
fn fits(windows: &[Window], number: usize, own: &[Interval]) -> bool
    ensures { result ≡ true → (x : ℕ) → have_line own.now x ≡ true → is_open windows.now number x ≡ true }
{
    for at in 0..own.len() {
        if !is_in(windows, number, own[at]) {
            return false;
        }
    }
    true
}

// Whether some window of the value register has all lines of an interval.
fn is_in(windows: &[Window], number: usize, part: Interval) -> bool
    ensures { result ≡ true → (x : ℕ) → part.from ≤ x → x ≤ part.to → is_open windows.now number x ≡ true }
{
    for at in 0..windows.len() {
        let window = windows[at];
        if window.number == number && window.from <= part.from && part.to <= window.to {
            return true;
        }
    }
    false
}

/// The windows without the lines of these parts in a value register; those that end before a line are left out.
pub fn cleared(
    alloc: Global,
    windows: Vec<Window>,
    number: usize,
    own: &[Interval],
    line: usize,
) -> Result<Vec<Window>, NoMemory>
    ensures were { IfOk result (λ left. (r x : ℕ) → is_open left.items r x ≡ true → is_open windows.items r x ≡ true) }
    ensures apart { IfOk result (λ left. (x : ℕ) → is_open left.items number x ≡ true → have_line own.now x ≡ true → ⊥) }
{
    let mut left = windows;
    for at in 0..own.len() {
        left = without(alloc, left.as_slice(), number, own[at], line)?;
    }
    Ok(left)
}

// The windows without the lines of an interval in a value register.
fn without(
    alloc: Global,
    windows: &[Window],
    number: usize,
    part: Interval,
    line: usize,
) -> Result<Vec<Window>, NoMemory>
    ensures were { IfOk result (λ left. (r x : ℕ) → is_open left.items r x ≡ true → is_open windows.now r x ≡ true) }
    ensures apart { IfOk result (λ left. (x : ℕ) → is_open left.items number x ≡ true → part.from ≤ x → x ≤ part.to → ⊥) }
{
    let mut left = Vec::new(alloc);
    for at in 0..windows.len() {
        add_cut(&mut left, windows[at], number, part, line)?;
    }
    Ok(left)
}

// A window is added, without the lines of an interval if it is one of the value register.
fn add_cut(
    windows: &mut Vec<Window>,
    window: Window,
    number: usize,
    part: Interval,
    line: usize,
) -> Result<(), NoMemory>
    ensures { OnOk result ((r x : ℕ) → is_open windows.new.items r x ≡ true
        → (is_open windows.old.items r x ≡ true) ⊎ (IsLineOf window r x × (r ≡ number → part.from ≤ x → x ≤ part.to → ⊥))) }
{
    if window.number != number || window.to < part.from || part.to < window.from {
        return add(windows, window, line);
    }
    if window.from < part.from {
        let before = Window {
            number,
            from: window.from,
            to: part.from - 1,
        };
        add(windows, before, line)?;
    }
    if part.to < window.to {
        let behind = Window {
            number,
            from: part.to + 1,
            to: window.to,
        };
        add(windows, behind, line)?;
    }
    Ok(())
}

/// A window is added, if it does not end before a line and there are not too many.
pub fn add(windows: &mut Vec<Window>, window: Window, line: usize) -> Result<(), NoMemory>
    ensures { OnOk result ((r x : ℕ) → is_open windows.new.items r x ≡ true → (is_open windows.old.items r x ≡ true) ⊎ IsLineOf window r x) }
{
    if line <= window.to && windows.len() < MOST {
        windows.push(window)?;
    }
    Ok(())
}
