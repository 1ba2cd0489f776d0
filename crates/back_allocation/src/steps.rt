// What lines do with registers, and where they go.

ghost use Rattle.std.specs.Prelude.{◌≡◌, ◌<◌, ◌++◌, ◌∷◌, List, [], length, slice_get, slice_index_or, Some, IfOk, OnOk};
ghost use Rattle.mid_lines.specs.declared.line.Line.{Line};
ghost use Rattle.back_places.specs.Facts.{callee_registers};
ghost use Rattle.back_allocation.specs.LineSteps.{operation_reads, operation_gives, operation_aside, line_reads, line_gives, line_falls, line_aside, step_of, steps_from, landings_in};

use back_liveness::{Step, StepList};
use base::{ItemList, NoMemory};
use mid_code::{Callee, Operation, Register, RegisterList};
use mid_lines::{Line, LineList, TargetList};
use std::alloc::Global;

/// For each line the landings of the records that stand at it; none where the list is shorter.
pub type LandingsList = ItemList<TargetList>;

/// The steps of lines with these landings.
pub fn steps_of(
    alloc: Global,
    lines: &LineList,
    landings: &LandingsList,
) -> Result<StepList, NoMemory>
    ensures { IfOk result (λ steps. steps ≡ steps_from (landings_in landings.now) 0 lines.now) }
{
    let mut steps = StepList::new(alloc);
    let none = TargetList::new(alloc);
    for at in 0..lines.len() {
        push_step(
            alloc,
            &mut steps,
            lines,
            landings_at(landings, &none, at),
            at,
        )?;
    }
    Ok(steps)
}

// Appends the step of a line.
fn push_step(
    alloc: Global,
    steps: &mut StepList,
    lines: &LineList,
    landings: &TargetList,
    at: usize,
) -> Result<(), NoMemory>
    ensures { OnOk result ((x : Line) → slice_get lines.now at ≡ Some x → steps.new ≡ steps.old ++ step_of landings.now x ∷ []) }
{
    match lines.get(at) {
        Some(line) => {
            let step = step_of(alloc, line, landings)?;
            steps.push(step)
        }
        None => Ok(()),
    }
}

// The landings at a line.
fn landings_at<'a>(landings: &'a LandingsList, none: &'a TargetList, line: usize) -> &'a TargetList
    requires { none.now ≡ [] }
    ensures { result.now ≡ landings_in landings.now line }
{
    match landings.get(line) {
        Some(here) => here,
        None => none,
    }
}

// The step of a line at which records with these landings stand.
fn step_of(alloc: Global, line: &Line, landings: &TargetList) -> Result<Step, NoMemory>
    ensures { IfOk result (λ s. s ≡ step_of landings.now line.now) }
{
    Ok(Step {
        reads: reads_of(alloc, line)?,
        written: gives_of(line),
        falls: falls(line),
        aside: aside_of(alloc, line, landings)?,
    })
}

/// The numbers of a slice, as a list.
pub fn copied(alloc: Global, numbers: &[usize]) -> Result<ItemList<usize>, NoMemory>
    ensures { IfOk result (λ list. list ≡ numbers.now) }
{
    let mut list = ItemList::new(alloc);
    for number in numbers {
        list.push(*number)?;
    }
    Ok(list)
}

fn reads_of(alloc: Global, line: &Line) -> Result<RegisterList, NoMemory>
    ensures { IfOk result (λ list. list ≡ line_reads line.now) }
{
    match line {
        Line::Do(operation) => operation_reads(alloc, operation),
        Line::Branch { test, .. } => copied(alloc, &[test.first, test.second]),
        Line::Switch { register, .. } => copied(alloc, &[*register]),
        Line::Lend { words, .. } => copied(alloc, &[*words]),
        Line::Return(register) => copied(alloc, &[*register]),
        Line::Cut { block, word } => copied(alloc, &[*block, *word]),
        Line::Halt(register) => copied(alloc, &[*register]),
        Line::Unhandled {
            class,
            site,
            condition,
        } => copied(alloc, &[*class, *site, *condition]),
        Line::Jump(_)
        | Line::Lay { .. }
        | Line::Landed(_)
        | Line::GiveBack(_)
        | Line::GiveBackLent => Ok(ItemList::new(alloc)),
    }
}

fn operation_reads(alloc: Global, operation: &Operation) -> Result<RegisterList, NoMemory>
    ensures { IfOk result (λ list. list ≡ operation_reads operation.now) }
{
    match operation {
        Operation::Move { from, .. } => copied(alloc, &[*from]),
        Operation::Constant { .. } | Operation::Get { .. } => Ok(ItemList::new(alloc)),
        Operation::Compute { first, second, .. } => copied(alloc, &[*first, *second]),
        Operation::Load { base, .. } => copied(alloc, &[*base]),
        Operation::Store { from, base, .. } => copied(alloc, &[*from, *base]),
        Operation::Request { words, .. } => copied(alloc, &[*words]),
        Operation::Draw { base, .. } => copied(alloc, &[*base]),
        Operation::Put { from } => copied(alloc, &[*from]),
        Operation::Call {
            callee,
            arguments,
            ..
        } => call_reads(alloc, *callee, arguments.as_slice()),
    }
}

fn call_reads(
    alloc: Global,
    callee: Callee,
    arguments: &[Register],
) -> Result<RegisterList, NoMemory>
    ensures { IfOk result (λ list. list ≡ arguments.now ++ callee_registers callee) }
{
    let mut list = copied(alloc, arguments)?;
    match callee {
        Callee::Procedure(_) => {}
        Callee::Word(register) => list.push(register)?,
    }
    Ok(list)
}

/// The register to which a line gives a word.
pub fn gives_of(line: &Line) -> Option<Register>
    ensures { result ≡ line_gives line.now }
{
    match line {
        Line::Do(operation) => operation_gives(operation),
        Line::Lay { block, .. } | Line::Lend { block, .. } => Some(*block),
        Line::Landed(register) => Some(*register),
        _ => None,
    }
}

fn operation_gives(operation: &Operation) -> Option<Register>
    ensures { result ≡ operation_gives operation.now }
{
    match operation {
        Operation::Move { to, .. } => Some(*to),
        Operation::Constant { to, .. } => Some(*to),
        Operation::Compute { to, .. } => Some(*to),
        Operation::Load { to, .. } => Some(*to),
        Operation::Request { to, .. } => Some(*to),
        Operation::Draw { to, .. } => Some(*to),
        Operation::Get { to } => Some(*to),
        Operation::Call { to, .. } => Some(*to),
        Operation::Store { .. } | Operation::Put { .. } => None,
    }
}

fn falls(line: &Line) -> bool
    ensures { result ≡ line_falls line.now }
{
    match line {
        Line::Switch { .. }
        | Line::Jump(_)
        | Line::Return(_)
        | Line::Cut { .. }
        | Line::Halt(_)
        | Line::Unhandled { .. } => false,
        _ => true,
    }
}

fn aside_of(alloc: Global, line: &Line, landings: &TargetList) -> Result<TargetList, NoMemory>
    ensures { IfOk result (λ list. list ≡ line_aside landings.now line.now) }
{
    match line {
        Line::Do(Operation::Call { .. }) => copied(alloc, landings.as_slice()),
        Line::Branch { otherwise, .. } => copied(alloc, &[*otherwise]),
        Line::Switch { targets, .. } => copied(alloc, targets.as_slice()),
        Line::Jump(to) => copied(alloc, &[*to]),
        Line::Cut { .. } => copied(alloc, landings.as_slice()),
        _ => Ok(ItemList::new(alloc)),
    }
}
