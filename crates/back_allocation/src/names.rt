// Lines with names in the place of their registers.

ghost use Rattle.std.specs.Prelude.{◌≡◌, ◌≢◌, ◌≤◌, ◌<◌, ◌⊎◌, ◌+◌, ◌^◌, ◌==◌, ℕ, true, length, map, slice_get, slice_index, Some, None, IfOk, OnOk};
ghost use Rattle.std.specs.List.{list_any};
ghost use Rattle.mid_lines.specs.declared.line.Line.{Line};
ghost use Rattle.back_liveness.specs.Barriers.{Crosses};
ghost use Rattle.back_allocation.specs.LineSteps.{line_reads, line_gives};
ghost use Rattle.back_allocation.specs.Names.{named_callee, named_operation, named_line, AreNamings};
ghost use Rattle.back_allocation.specs.NamesFound.{owner_in, checked_name, name_in, AreTogether, AreGrouped, AreOverwritten};

use crate::steps::gives_of;
use back_liveness::Barrier;
use base::NoMemory;
use mid_code::{Callee, Operation, Register, RegisterList, Test};
use mid_lines::{Line, LineList, TargetList};
use std::alloc::Global;

/// Names for the registers of a procedure: of which register each is a name, from where and up to where those of a register stand but its
/// first one, the names by which lines read registers, one behind the other, and those to which lines give words.
#[derive(Drop)]
pub struct Names {
    pub owners: Vec<usize>,
    pub starts: Vec<usize>,
    pub ends: Vec<usize>,
    pub reads: Vec<usize>,
    pub given: Vec<usize>,
}

/// Names where each register has itself for a name, and no other.
pub fn own_names(alloc: Global, registers: usize) -> Result<Names, NoMemory>
    ensures own { IfOk result (λ names. AreGrouped names.owners.items names.starts.items names.ends.items registers) }
    ensures only { IfOk result (λ names. length names.owners.items ≡ registers) }
{
    let mut owners = Vec::new(alloc);
    for register in 0..registers {
        owners.push(register)?;
    }
    Ok(Names {
        owners,
        starts: Vec::new(alloc),
        ends: Vec::new(alloc),
        reads: Vec::new(alloc),
        given: Vec::new(alloc),
    })
}

/// Whether the first names are those of registers by themselves, and the others of a register stand one behind the other.
pub fn are_grouped(names: &Names, registers: usize) -> bool
    ensures { result ≡ true → AreGrouped names.now.owners.items names.now.starts.items names.now.ends.items registers }
{
    let owners = names.owners.as_slice();
    if owners.len() < registers {
        return false;
    }
    let own = have_own(owners, registers);
    let within = are_within(owners, names.starts.as_slice(), names.ends.as_slice());
    own && within
}

fn have_own(owners: &[usize], registers: usize) -> bool
    requires { registers ≤ length owners.now }
    ensures { result ≡ true → (w : ℕ) → w < registers → owner_in owners.now w ≡ w }
{
    for register in 0..registers {
        if owners[register] != register {
            return false;
        }
    }
    true
}

fn are_within(owners: &[usize], starts: &[usize], ends: &[usize]) -> bool
    ensures { result ≡ true → AreTogether owners.now starts.now ends.now }
{
    for name in 0..owners.len() {
        if !is_within(owners[name], starts, ends, name) {
            return false;
        }
    }
    true
}

fn is_within(owner: usize, starts: &[usize], ends: &[usize], name: usize) -> bool
    ensures { result ≡ true → (name ≡ owner) ⊎ ((slice_index starts.now owner ≤ name) × (name < slice_index ends.now owner)) }
{
    if owner == name {
        return true;
    }
    owner < starts.len() && owner < ends.len() && starts[owner] <= name && name < ends[owner]
}

// A name of the register, or the register itself.
fn checked_name(owners: &[usize], register: Register, name: usize) -> usize
    ensures { result ≡ checked_name owners.now register name }
{
    if name < owners.len() && owners[name] == register {
        name
    } else {
        register
    }
}

// The name by which a register is read.
fn name_in(owners: &[usize], current: &[usize], register: Register) -> usize
    ensures { result ≡ name_in owners.now current.now register }
{
    let name = if register < current.len() {
        current[register]
    } else {
        0
    };
    checked_name(owners, register, name)
}

// The operation with names.
fn named_operation(
    alloc: Global,
    operation: &Operation,
    owners: &[usize],
    current: &[usize],
    given: usize,
) -> Result<Operation, NoMemory>
    ensures { IfOk result (λ named. named ≡ named_operation (name_in owners.now current.now) (λ to. given) operation.now) }
{
    match operation {
        Operation::Move { from, .. } => Ok(Operation::Move {
            to: given,
            from: name_in(owners, current, *from),
        }),
        Operation::Constant { word, .. } => Ok(Operation::Constant {
            to: given,
            word: *word,
        }),
        Operation::Compute {
            which,
            first,
            second,
            ..
        } => Ok(Operation::Compute {
            to: given,
            which: *which,
            first: name_in(owners, current, *first),
            second: name_in(owners, current, *second),
        }),
        Operation::Load { base, offset, .. } => Ok(Operation::Load {
            to: given,
            base: name_in(owners, current, *base),
            offset: *offset,
        }),
        Operation::Store { from, base, offset } => Ok(Operation::Store {
            from: name_in(owners, current, *from),
            base: name_in(owners, current, *base),
            offset: *offset,
        }),
        Operation::Request { words, .. } => Ok(Operation::Request {
            to: given,
            words: name_in(owners, current, *words),
        }),
        Operation::Draw { base, offset, .. } => Ok(Operation::Draw {
            to: given,
            base: name_in(owners, current, *base),
            offset: *offset,
        }),
        Operation::Put { from } => Ok(Operation::Put {
            from: name_in(owners, current, *from),
        }),
        Operation::Get { .. } => Ok(Operation::Get { to: given }),
        Operation::Call {
            callee,
            arguments,
            ..
        } => {
            let callee = named_callee(*callee, owners, current, given);
            let arguments = named_registers(alloc, arguments, owners, current)?;
            Ok(Operation::Call {
                to: given,
                callee,
                arguments,
            })
        }
    }
}

fn named_callee(callee: Callee, owners: &[usize], current: &[usize], given: usize) -> Callee
    ensures { result ≡ named_callee (name_in owners.now current.now) (λ to. given) callee }
{
    match callee {
        Callee::Procedure(number) => {
            let _ = given;
            Callee::Procedure(number)
        }
        Callee::Word(register) => Callee::Word(name_in(owners, current, register)),
    }
}

fn named_registers(
    alloc: Global,
    registers: &RegisterList,
    owners: &[usize],
    current: &[usize],
) -> Result<RegisterList, NoMemory>
    ensures { IfOk result (λ named. named ≡ map (name_in owners.now current.now) registers.now) }
{
    let mut named = RegisterList::new(alloc);
    for register in registers.as_slice() {
        named.push(name_in(owners, current, *register))?;
    }
    Ok(named)
}

fn copied_targets(alloc: Global, targets: &TargetList) -> Result<TargetList, NoMemory>
    ensures { IfOk result (λ copied. copied ≡ targets.now) }
{
    crate::steps::copied(alloc, targets.as_slice())
}

// The line with names.
fn named_line(
    alloc: Global,
    line: &Line,
    owners: &[usize],
    current: &[usize],
    given: usize,
) -> Result<Line, NoMemory>
    ensures { IfOk result (λ named. named ≡ named_line (name_in owners.now current.now) (λ to. given) line.now) }
{
    match line {
        Line::Do(operation) => {
            let named = named_operation(alloc, operation, owners, current, given)?;
            Ok(Line::Do(named))
        }
        Line::Branch { test, otherwise } => Ok(Line::Branch {
            test: Test {
                comparison: test.comparison,
                first: name_in(owners, current, test.first),
                second: name_in(owners, current, test.second),
            },
            otherwise: *otherwise,
        }),
        Line::Switch { register, targets } => {
            let targets = copied_targets(alloc, targets)?;
            Ok(Line::Switch {
                register: name_in(owners, current, *register),
                targets,
            })
        }
        Line::Jump(to) => Ok(Line::Jump(*to)),
        Line::Lay { words, landing, .. } => Ok(Line::Lay {
            block: given,
            words: *words,
            landing: *landing,
        }),
        Line::Landed(_) => Ok(Line::Landed(given)),
        Line::GiveBack(words) => Ok(Line::GiveBack(*words)),
        Line::Lend { words, .. } => Ok(Line::Lend {
            block: given,
            words: name_in(owners, current, *words),
        }),
        Line::GiveBackLent => Ok(Line::GiveBackLent),
        Line::Return(register) => Ok(Line::Return(name_in(owners, current, *register))),
        Line::Cut { block, word } => Ok(Line::Cut {
            block: name_in(owners, current, *block),
            word: name_in(owners, current, *word),
        }),
        Line::Halt(register) => Ok(Line::Halt(name_in(owners, current, *register))),
        Line::Unhandled {
            class,
            site,
            condition,
        } => Ok(Line::Unhandled {
            class: name_in(owners, current, *class),
            site: name_in(owners, current, *site),
            condition: name_in(owners, current, *condition),
        }),
    }
}

// The name to which a line gives its word, where that is found.
fn given_name(line: &Line, owners: &[usize], found: usize) -> usize
    ensures { (to : ℕ) → line_gives line.now ≡ Some to → result ≡ checked_name owners.now to found }
{
    match gives_of(line) {
        Some(to) => checked_name(owners, to, found),
        None => 0,
    }
}

// A number of a list; 0 behind its end.
pub(crate) fn number_at(list: &[usize], at: usize) -> usize
    ensures { result ≡ slice_index list.now at }
{
    if at < list.len() { list[at] } else { 0 }
}

/// The lines with these names. Each register that they read or give words to is one of so many.
pub fn named_lines(
    alloc: Global,
    lines: &LineList,
    names: &Names,
    registers: usize,
) -> Result<LineList, NoMemory>
    requires grouped { AreGrouped names.now.owners.items names.now.starts.items names.now.ends.items registers }
    requires given { (line to : ℕ) (x : Line) → slice_get lines.now line ≡ Some x → line_gives x ≡ Some to → to < registers }
    requires read { (line v : ℕ) (x : Line) → slice_get lines.now line ≡ Some x → list_any (λ r. r == v) (line_reads x) ≡ true → v < registers }
    ensures { IfOk result (λ named. AreNamings (owner_in names.now.owners.items) (length names.now.owners.items) lines.now named) }
{
    let owners = names.owners.as_slice();
    let mut current = vec![in alloc; 0; registers]?;
    let mut named = LineList::new(alloc);
    let mut from = 0;
    for at in 0..lines.len() {
        let Some(line) = lines.get(at) else {
            unreachable!()
        };
        from = take_names(current.as_mut_slice(), line, names.reads.as_slice(), from);
        let given = given_name(line, owners, number_at(names.given.as_slice(), at));
        named.push(named_line(alloc, line, owners, current.as_slice(), given)?)?;
    }
    Ok(named)
}

// The names by which a line reads its registers, from a place in the list of all of them on; the place behind them.
fn take_names(current: &mut [usize], line: &Line, reads: &[usize], from: usize) -> usize {
    match line {
        Line::Do(
            Operation::Call {
                callee,
                arguments,
                ..
            },
        ) => {
            let mut at = from;
            for register in arguments.as_slice() {
                at = take_name(current, *register, reads, at);
            }
            match callee {
                Callee::Procedure(_) => at,
                Callee::Word(register) => take_name(current, *register, reads, at),
            }
        }
        Line::Do(operation) => take_operands(current, operation, reads, from),
        Line::Branch { test, .. } => {
            let at = take_name(current, test.first, reads, from);
            take_name(current, test.second, reads, at)
        }
        Line::Switch { register, .. } => take_name(current, *register, reads, from),
        Line::Lend { words, .. } => take_name(current, *words, reads, from),
        Line::Return(register) => take_name(current, *register, reads, from),
        Line::Cut { block, word } => {
            let at = take_name(current, *block, reads, from);
            take_name(current, *word, reads, at)
        }
        Line::Halt(register) => take_name(current, *register, reads, from),
        Line::Unhandled {
            class,
            site,
            condition,
        } => {
            let at = take_name(current, *class, reads, from);
            let at = take_name(current, *site, reads, at);
            take_name(current, *condition, reads, at)
        }
        _ => from,
    }
}

fn take_operands(
    current: &mut [usize],
    operation: &Operation,
    reads: &[usize],
    from: usize,
) -> usize {
    match operation {
        Operation::Move { from: register, .. } => take_name(current, *register, reads, from),
        Operation::Compute { first, second, .. } => {
            let at = take_name(current, *first, reads, from);
            take_name(current, *second, reads, at)
        }
        Operation::Load { base, .. } => take_name(current, *base, reads, from),
        Operation::Store {
            from: register,
            base,
            ..
        } => {
            let at = take_name(current, *register, reads, from);
            take_name(current, *base, reads, at)
        }
        Operation::Request { words, .. } => take_name(current, *words, reads, from),
        Operation::Draw { base, .. } => take_name(current, *base, reads, from),
        Operation::Put { from: register } => take_name(current, *register, reads, from),
        _ => from,
    }
}

fn take_name(current: &mut [usize], register: Register, reads: &[usize], at: usize) -> usize {
    if register < current.len() {
        current[register] = number_at(reads, at);
    }
    at.saturating_add(1)
}

/// Barriers that tell whether names say what registers have: behind a line that gives a word to a name all others of its register are crossed.
pub fn overwritten_of(
    alloc: Global,
    named: &LineList,
    names: &Names,
) -> Result<Vec<Barrier>, NoMemory>
    requires { AreTogether names.now.owners.items names.now.starts.items names.now.ends.items }
    ensures { IfOk result (λ barriers. AreOverwritten named.now (owner_in names.now.owners.items) (length names.now.owners.items) barriers.items (length named.now)) }
{
    let mut barriers = Vec::new(alloc);
    barriers.push(Barrier::Open)?;
    for at in 0..named.len() {
        let Some(line) = named.get(at) else {
            unreachable!()
        };
        barriers.push(overwritten_by(line, names))?;
    }
    Ok(barriers)
}

// What is crossed behind a line.
fn overwritten_by(line: &Line, names: &Names) -> Barrier
    requires { AreTogether names.now.owners.items names.now.starts.items names.now.ends.items }
    ensures { (to w : ℕ) → line_gives line.now ≡ Some to → w < length names.now.owners.items → owner_in names.now.owners.items w ≡ owner_in names.now.owners.items to → w ≢ to
        → Crosses result w }
{
    match gives_of(line) {
        None => Barrier::Open,
        Some(written) => {
            let owner = number_at(names.owners.as_slice(), written);
            Barrier::ClosedAmong {
                register: owner,
                from: number_at(names.starts.as_slice(), owner),
                to: number_at(names.ends.as_slice(), owner),
                written,
            }
        }
    }
}
