// From where one comes to a line: the first and the last line that goes aside to it; and whether loops lie one in another.

ghost use Rattle.std.specs.Prelude.{◌≡◌, ◌≤◌, ◌<◌, ◌+◌, ◌^◌, ◌==◌, ℕ, true, false, length, slice_get, slice_index, Some, IfOk, IsTrue};
ghost use Rattle.std.specs.List.{list_any};
ghost use Rattle.back_liveness.specs.declared.step.Step.{Step};
ghost use Rattle.back_liveness.specs.Liveness.{goes_aside, Goes};
ghost use Rattle.back_liveness.specs.Heads.{IsBetween, AreHeadsOf, AreHeads, AreSources, IsSameOr, AreFloors, AreRoofs, IsNestedAt, AreNested, IsCounterexample};

use crate::step::StepList;
use base::NoMemory;
use std::alloc::Global;

/// For each line, and for the end behind them: the first and the last of it and of the lines that go aside to it; the first of those of
/// all lines from it on, and the last of those of all lines up to it.
#[derive(Drop)]
pub struct Heads {
    pub earliest: Vec<usize>,
    pub latest: Vec<usize>,
    pub floors: Vec<usize>,
    pub roofs: Vec<usize>,
}

/// The heads of these lines.
pub fn heads_of(alloc: Global, steps: &StepList) -> Result<Heads, NoMemory>
    requires { length steps.now < 2 ^ 62 }
    ensures heads { IfOk result (λ h. AreHeads steps.now h.earliest.items h.latest.items) }
    ensures sources { IfOk result (λ h. AreSources steps.now h.earliest.items h.latest.items) }
    ensures floors { IfOk result (λ h. AreFloors h.earliest.items h.floors.items) }
    ensures roofs { IfOk result (λ h. AreRoofs h.latest.items h.roofs.items) }
{
    let mut earliest = own_lines(alloc, steps.len())?;
    let mut latest = own_lines(alloc, steps.len())?;
    add_lines(&mut earliest, &mut latest, steps);
    let floors = floors_of(alloc, earliest.as_slice())?;
    let roofs = roofs_of(alloc, latest.as_slice())?;
    Ok(Heads {
        earliest,
        latest,
        floors,
        roofs,
    })
}

// The least of each number and those behind it.
fn floors_of(alloc: Global, earliest: &[usize]) -> Result<Vec<usize>, NoMemory>
    ensures { IfOk result (λ floors. AreFloors earliest.now floors.items) }
{
    let mut floors = vec![in alloc; 0; earliest.len()]?;
    fill_floors(floors.as_mut_slice(), earliest);
    Ok(floors)
}

fn fill_floors(floors: &mut [usize], earliest: &[usize])
    requires { length floors.old ≡ length earliest.now }
    ensures { AreFloors earliest.now floors.new }
{
    let count = earliest.len();
    let mut least = count;
    for done in 0..count {
        let t = count - 1 - done;
        least = least.min(earliest[t]);
        floors[t] = least;
    }
}

// The greatest of each number and those before it.
fn roofs_of(alloc: Global, latest: &[usize]) -> Result<Vec<usize>, NoMemory>
    ensures { IfOk result (λ roofs. AreRoofs latest.now roofs.items) }
{
    let mut roofs = vec![in alloc; 0; latest.len()]?;
    fill_roofs(roofs.as_mut_slice(), latest);
    Ok(roofs)
}

fn fill_roofs(roofs: &mut [usize], latest: &[usize])
    requires { length roofs.old ≡ length latest.now }
    ensures { AreRoofs latest.now roofs.new }
{
    let mut greatest = 0;
    for t in 0..latest.len() {
        greatest = greatest.max(latest[t]);
        roofs[t] = greatest;
    }
}

// All lines, from which one comes to those to which they go aside.
fn add_lines(earliest: &mut [usize], latest: &mut [usize], steps: &StepList)
    requires begun { AreHeadsOf steps.now 0 earliest.old latest.old }
    ensures heads { AreHeads steps.now earliest.new latest.new }
    ensures sources { AreSources steps.now earliest.old latest.old → AreSources steps.now earliest.new latest.new }
{
    for line in 0..steps.len() {
        add_line(earliest, latest, steps, line);
    }
}

// The numbers up to one.
fn own_lines(alloc: Global, last: usize) -> Result<Vec<usize>, NoMemory>
    requires { last < 2 ^ 62 }
    ensures count { IfOk result (λ own. length own.items ≡ last + 1) }
    ensures own { IfOk result (λ own. (t : ℕ) → t ≤ last → slice_index own.items t ≡ t) }
    ensures within { IfOk result (λ own. (t : ℕ) → slice_index own.items t ≤ last) }
{
    let mut own = Vec::new(alloc);
    for t in 0..last + 1 {
        own.push(t)?;
    }
    Ok(own)
}

// The line, from which one comes to each of those to which it goes aside.
fn add_line(earliest: &mut [usize], latest: &mut [usize], steps: &StepList, line: usize)
    requires { length earliest.old ≡ length latest.old }
    ensures kept { (k t : ℕ) → IsBetween earliest.old latest.old k t → IsBetween earliest.new latest.new k t }
    ensures added { (t : ℕ) (s : Step) → slice_get steps.now line ≡ Some s → goes_aside s t ≡ true → t < length earliest.old
        → IsBetween earliest.new latest.new line t }
    ensures within { (n : ℕ) → line ≤ n → ((t : ℕ) → slice_index latest.old t ≤ n) → (t : ℕ) → slice_index latest.new t ≤ n }
    ensures first { (t : ℕ) → IsSameOr earliest.old earliest.new t line (Goes steps.now line t) }
    ensures last { (t : ℕ) → IsSameOr latest.old latest.new t line (Goes steps.now line t) }
{
    match steps.get(line) {
        Some(step) => add_sources(earliest, latest, step.aside.as_slice(), line),
        None => {}
    }
}

fn add_sources(earliest: &mut [usize], latest: &mut [usize], aside: &[usize], line: usize)
    requires { length earliest.old ≡ length latest.old }
    ensures kept { (k t : ℕ) → IsBetween earliest.old latest.old k t → IsBetween earliest.new latest.new k t }
    ensures added { (t : ℕ) → list_any (λ a. a == t) aside.now ≡ true → t < length earliest.old
        → IsBetween earliest.new latest.new line t }
    ensures within { (n : ℕ) → line ≤ n → ((t : ℕ) → slice_index latest.old t ≤ n) → (t : ℕ) → slice_index latest.new t ≤ n }
    ensures first { (t : ℕ) → IsSameOr earliest.old earliest.new t line (list_any (λ a. a == t) aside.now ≡ true) }
    ensures last { (t : ℕ) → IsSameOr latest.old latest.new t line (list_any (λ a. a == t) aside.now ≡ true) }
{
    for to in aside {
        add_source(earliest, latest, *to, line);
    }
}

fn add_source(earliest: &mut [usize], latest: &mut [usize], to: usize, line: usize)
    requires { length earliest.old ≡ length latest.old }
    ensures kept { (k t : ℕ) → IsBetween earliest.old latest.old k t → IsBetween earliest.new latest.new k t }
    ensures added { to < length earliest.old → IsBetween earliest.new latest.new line to }
    ensures within { (n : ℕ) → line ≤ n → ((t : ℕ) → slice_index latest.old t ≤ n) → (t : ℕ) → slice_index latest.new t ≤ n }
    ensures first { (t : ℕ) → IsSameOr earliest.old earliest.new t line (to ≡ t) }
    ensures last { (t : ℕ) → IsSameOr latest.old latest.new t line (to ≡ t) }
{
    if to < earliest.len() {
        let first = earliest[to].min(line);
        let last = latest[to].max(line);
        earliest[to] = first;
        latest[to] = last;
    }
}

/// Whether loops lie one in another.
pub fn are_nested(earliest: &[usize], latest: &[usize]) -> bool
    requires same { length earliest.now ≡ length latest.now }
    requires within { (t : ℕ) → slice_index latest.now t < length latest.now }
    ensures nested { IsTrue result → AreNested earliest.now latest.now }
    ensures not_nested { result ≡ false → IsCounterexample earliest.now latest.now }
{
    for h in 0..latest.len() {
        if !is_nested(earliest, latest, h) {
            return false;
        }
    }
    true
}

// Whether all loops that one can come to inside of the loop with this head lie in it.
fn is_nested(earliest: &[usize], latest: &[usize], h: usize) -> bool
    requires same { length earliest.now ≡ length latest.now }
    requires there { h < length latest.now }
    requires within { (t : ℕ) → slice_index latest.now t < length latest.now }
    ensures nested { IsTrue result → (t : ℕ) → h < t → t ≤ slice_index latest.now h → IsNestedAt earliest.now latest.now h t }
    ensures not_nested { result ≡ false → IsCounterexample earliest.now latest.now }
{
    let last = latest[h];
    for t in h + 1..last + 1 {
        if earliest[t] < h || last < latest[t] {
            return false;
        }
    }
    true
}
