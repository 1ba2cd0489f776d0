// Which value registers are tried first for names: those in which words are passed, and those of names from which and to which words are moved.
// All others begin with the last registers, so that the first ones stay free for words that are passed.

use crate::steps::gives_of;
use back_scan::{Hint, HintList};
use base::NoMemory;
use mid_code::{Operation, Register};
use mid_lines::{Line, LineList};
use std::alloc::Global;

/// Hints for so many names.
pub fn hints_of(alloc: Global, lines: &LineList, names: usize) -> Result<HintList, NoMemory> {
    let mut hints = vec![in alloc; Hint::Nothing; names]?;
    for back in 0..lines.len() {
        let at = lines.len() - 1 - back;
        if let Some(line) = lines.get(at) {
            add_line(hints.as_mut_slice(), line, given_before(lines, at));
        }
    }
    let mut list = HintList::new(alloc);
    for name in 0..hints.len() {
        list.push(with_default(hints[name], name))?;
    }
    Ok(list)
}

// A name that has no hint begins with one of the last registers.
fn with_default(hint: Hint, name: usize) -> Hint {
    match hint {
        Hint::Nothing => Hint::Held(13 - name % 8),
        _ => hint,
    }
}

// The name to which the line before one gives a word.
fn given_before(lines: &LineList, at: usize) -> Option<Register> {
    match lines.get(at.saturating_sub(1)) {
        Some(line) => gives_of(line),
        None => None,
    }
}

// The hints of a line. Those of later lines are known.
fn add_line(hints: &mut [Hint], line: &Line, before: Option<Register>) {
    match line {
        Line::Do(Operation::Move { to, from }) => add_move(hints, *to, *from),
        Line::Do(Operation::Call { to, arguments, .. }) => {
            add(hints, *to, Hint::Held(0));
            let mut number = 0;
            for argument in arguments.as_slice() {
                if number < 14 {
                    add(hints, *argument, Hint::Held(number));
                    number += 1;
                }
            }
        }
        Line::Landed(register) => add(hints, *register, Hint::Held(0)),
        Line::Return(register) => add_returned(hints, *register, before),
        Line::Cut { word, .. } => add(hints, *word, Hint::Held(0)),
        _ => {}
    }
}

// What is returned as soon as it is given goes where results are.
fn add_returned(hints: &mut [Hint], register: Register, before: Option<Register>) {
    if let Some(given) = before {
        if given == register {
            add(hints, register, Hint::Held(0));
        }
    }
}

// A move has nothing to do where both names stand in one register.
fn add_move(hints: &mut [Hint], to: Register, from: Register) {
    match hint_of(hints, to) {
        Hint::Nothing => {
            add(hints, from, Hint::With(to));
            add(hints, to, Hint::With(from));
        }
        hint => add(hints, from, hint),
    }
}

fn hint_of(hints: &[Hint], name: usize) -> Hint {
    if name < hints.len() {
        hints[name]
    } else {
        Hint::Nothing
    }
}

// The first hint that is found stays.
fn add(hints: &mut [Hint], name: usize, hint: Hint) {
    if let Hint::Nothing = hint_of(hints, name) {
        if name < hints.len() {
            hints[name] = hint;
        }
    }
}
