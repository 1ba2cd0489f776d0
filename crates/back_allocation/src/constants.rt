// Names to which one constant alone is given, which need no place.

ghost use Rattle.std.specs.Prelude.{◌≡◌, ◌≤◌, ◌<◌, ◌^◌, ℕ, true, false, [], length, slice_get, slice_index_or, Some, None, IfOk, OnOk};
ghost use Rattle.mid_code.specs.declared.operation.Operation.TheVariants.{Constant};
ghost use Rattle.mid_lines.specs.declared.line.Line.{Line};
ghost use Rattle.mid_lines.specs.declared.line.Line.TheVariants.{Do};
ghost use Rattle.back_allocation.specs.LineSteps.{line_gives};
ghost use Rattle.back_allocation.specs.Constants.{AreConstants, AreKept, AreKeptParts, AreWords, constant_in};

use crate::steps::gives_of;
use back_liveness::{IntervalList, PartList, PartLists};
use base::NoMemory;
use mid_code::{Operation, Register};
use mid_lines::{Line, LineList};
use std::alloc::Global;

/// The constants of so many names, of which the first are parameters, by their numbers; none where a name has other words.
pub fn constants_of(
    alloc: Global,
    lines: &LineList,
    parameters: usize,
    names: usize,
) -> Result<Vec<Option<u32>>, NoMemory>
    ensures { IfOk result (λ constants. AreConstants lines.now (length lines.now) parameters names constants.items) }
{
    let mut constants = no_constants(alloc, names)?;
    propose_all(constants.as_mut_slice(), lines);
    pass_over(constants.as_mut_slice(), parameters);
    check_all(constants.as_mut_slice(), lines, parameters);
    Ok(constants)
}

fn no_constants(alloc: Global, names: usize) -> Result<Vec<Option<u32>>, NoMemory>
    ensures count { IfOk result (λ constants. length constants.items ≡ names) }
    ensures none { IfOk result (λ constants. (v : ℕ) → constant_in constants.items v ≡ None) }
{
    Ok(vec![in alloc; None; names]?)
}

// For each name some constant that is given to it.
fn propose_all(constants: &mut [Option<u32>], lines: &LineList)
    requires { AreWords constants.old }
    ensures count { length constants.new ≡ length constants.old }
    ensures words { AreWords constants.new }
{
    for at in 0..lines.len() {
        propose(constants, lines, at);
    }
}

fn propose(constants: &mut [Option<u32>], lines: &LineList, at: usize)
    requires { AreWords constants.old }
    ensures count { length constants.new ≡ length constants.old }
    ensures words { AreWords constants.new }
{
    if let Some(Line::Do(Operation::Constant { to, word })) = lines.get(at) {
        give(constants, *to, *word);
    }
}

fn give(constants: &mut [Option<u32>], to: Register, word: u32)
    requires { AreWords constants.old }
    ensures count { length constants.new ≡ length constants.old }
    ensures words { AreWords constants.new }
{
    if to < constants.len() {
        constants[to] = Some(word);
    }
}

// None for parameters.
fn pass_over(constants: &mut [Option<u32>], parameters: usize)
    ensures kept { (v w : ℕ) → constant_in constants.new v ≡ Some w → constant_in constants.old v ≡ Some w }
    ensures count { length constants.new ≡ length constants.old }
    ensures passed { (v : ℕ) → v < parameters → constant_in constants.new v ≡ None }
{
    for v in 0..constants.len().min(parameters) {
        constants[v] = None;
    }
}

// None where another word is given too.
fn check_all(constants: &mut [Option<u32>], lines: &LineList, parameters: usize)
    requires passed { (v : ℕ) → v < parameters → constant_in constants.old v ≡ None }
    requires words { AreWords constants.old }
    ensures { AreConstants lines.now (length lines.now) parameters (length constants.old) constants.new }
{
    for at in 0..lines.len() {
        check_line(constants, lines, at);
    }
}

fn check_line(constants: &mut [Option<u32>], lines: &LineList, at: usize)
    ensures count { length constants.new ≡ length constants.old }
    ensures kept { (v w : ℕ) → constant_in constants.new v ≡ Some w → constant_in constants.old v ≡ Some w }
    ensures given { (to w : ℕ) (x : Line) → slice_get lines.now at ≡ Some x → line_gives x ≡ Some to → constant_in constants.new to ≡ Some w
        → x ≡ Do (Constant to w) }
{
    if let Some(line) = lines.get(at) {
        keep_given(constants, line);
    }
}

fn keep_given(constants: &mut [Option<u32>], line: &Line)
    ensures count { length constants.new ≡ length constants.old }
    ensures kept { (v w : ℕ) → constant_in constants.new v ≡ Some w → constant_in constants.old v ≡ Some w }
    ensures given { (to w : ℕ) → line_gives line.now ≡ Some to → constant_in constants.new to ≡ Some w → line.now ≡ Do (Constant to w) }
{
    if let Line::Do(Operation::Constant { to, word }) = line {
        keep_only(constants, *to, Some(*word));
    } else {
        if let Some(to) = gives_of(line) {
            keep_only(constants, to, None);
        }
    }
}

// That of a name stays only if it is this word.
fn keep_only(constants: &mut [Option<u32>], to: Register, word: Option<u32>)
    ensures count { length constants.new ≡ length constants.old }
    ensures kept { (v w : ℕ) → constant_in constants.new v ≡ Some w → constant_in constants.old v ≡ Some w }
    ensures only { (w : ℕ) → constant_in constants.new to ≡ Some w → word ≡ Some w }
{
    if to < constants.len() {
        let constant = constants[to];
        if !is_same(constant, word) {
            constants[to] = None;
        }
    }
}

fn is_same(constant: Option<u32>, word: Option<u32>) -> bool
    ensures { result ≡ true → constant ≡ word }
{
    match (constant, word) {
        (Some(one), Some(other)) => one == other,
        _ => false,
    }
}

/// The intervals of names that have no constant.
pub fn without_constants(
    alloc: Global,
    intervals: &IntervalList,
    constants: &[Option<u32>],
) -> Result<IntervalList, NoMemory>
    ensures { IfOk result (λ kept. AreKept constants.now intervals.now kept) }
{
    let mut kept = IntervalList::new(alloc);
    let all = intervals.as_slice();
    for name in 0..all.len() {
        if has_constant(constants, name) {
            kept.push(None)?;
        } else {
            kept.push(all[name])?;
        }
    }
    Ok(kept)
}

/// The parts of names that have no constant.
pub fn parts_without_constants(
    alloc: Global,
    parts: PartLists,
    constants: &[Option<u32>],
) -> PartLists
    ensures { AreKeptParts constants.now parts result }
{
    let mut kept = parts;
    for name in 0..kept.len() {
        if has_constant(constants, name) {
            let _gone = kept.replace(name, PartList::new(alloc));
        }
    }
    kept
}

fn has_constant(constants: &[Option<u32>], name: usize) -> bool
    ensures some { result ≡ true → constant_in constants.now name ≡ None → ⊥ }
    ensures none { result ≡ false → constant_in constants.now name ≡ None }
{
    if name < constants.len() {
        constants[name].is_some()
    } else {
        false
    }
}
