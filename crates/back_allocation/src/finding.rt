// Names for the registers of a procedure, so that each word that is given to a register may have a place of its own. Reads of a register
// that a word may reach have the name to which it is given. A parameter that outlasts calls has two: it is put into a slot, and it is read from where
// it is passed as long as it is there. Nothing rests on that: whether names say what registers have is tested.

ghost use Rattle.std.specs.Prelude.{◌≡◌, ◌<◌, ◌^◌, length};

use crate::barriers::barriers_of;
use crate::names::{Names, number_at};
use crate::steps::{LandingsList, steps_of};
use back_liveness::{Barrier, Step, StepList};
use base::NoMemory;
use mid_code::Register;
use mid_lines::LineProcedure;
use std::alloc::Global;

// No name.
const NONE: usize = usize::MAX;

// How many registers are looked at for each line, in the mean. Those that are left over have one name each, so that time is in proportion to lines.
const EACH: usize = 200;

// What is found so far: the names with their owners, which names are one, and those of the reads and of the given words of lines; where the
// reads of a line stand; the first and the last line with a point of a register, how many lines give it a word, and the last line from which one
// comes back to a line; which names are alive where a barrier crosses them, and the names of parameters where they are passed. Of the register
// that is looked at: its name at each line, and at heads of loops. So many lines may be looked at yet.
#[derive(Drop)]
struct Finding {
    owners: Vec<usize>,
    parents: Vec<usize>,
    starts: Vec<usize>,
    ends: Vec<usize>,
    reads: Vec<usize>,
    given: Vec<usize>,
    bases: Vec<usize>,
    firsts: Vec<usize>,
    lasts: Vec<usize>,
    writes: Vec<usize>,
    latest: Vec<usize>,
    barriers: Vec<Barrier>,
    crossed: Vec<bool>,
    passed: Vec<usize>,
    here: Vec<usize>,
    heads: Vec<usize>,
    left: usize,
}

/// Names for the registers of a procedure, at whose lines records with these landings stand.
pub fn names_of(
    alloc: Global,
    procedure: &LineProcedure,
    landings: &LandingsList,
) -> Result<Names, NoMemory>
    requires { length procedure.now.lines < 2 ^ 62 }
{
    let steps = steps_of(alloc, &procedure.lines, landings)?;
    let barriers = barriers_of(alloc, &procedure.lines, landings)?;
    let mut finding = begun(alloc, &steps, barriers, procedure.registers)?;
    let parameters = procedure.parameters.min(procedure.registers);
    finding.passed = filled(alloc, parameters.min(14), 0)?;
    for line in 0..steps.len() {
        add_points(&mut finding, &steps, line);
    }
    for register in 0..parameters {
        set_at(finding.firsts.as_mut_slice(), register, 0);
        find_group(&mut finding, &steps, register, true)?;
    }
    for back in parameters..procedure.registers {
        let register = procedure.registers - 1 - (back - parameters);
        find_group(&mut finding, &steps, register, false)?;
    }
    let mut crossed = filled_flags(alloc, finding.passed.len())?;
    tell_crossed(&mut finding, crossed.as_mut_slice());
    read_passed(&mut finding, &steps, crossed.as_mut_slice());
    settle(&mut finding);
    Ok(names_found(finding))
}

fn names_found(finding: Finding) -> Names {
    let Finding {
        owners,
        starts,
        ends,
        reads,
        given,
        ..
    } = finding;
    Names {
        owners,
        starts,
        ends,
        reads,
        given,
    }
}

// Nothing is found yet: each register has itself for a name.
fn begun(
    alloc: Global,
    steps: &StepList,
    barriers: Vec<Barrier>,
    registers: usize,
) -> Result<Finding, NoMemory> {
    let lines = steps.len();
    let mut bases = Vec::new(alloc);
    let mut reads = Vec::new(alloc);
    for line in 0..lines {
        bases.push(reads.len())?;
        if let Some(step) = steps.get(line) {
            for _read in step.reads.as_slice() {
                reads.push(0)?;
            }
        }
    }
    Ok(Finding {
        owners: counted(alloc, registers)?,
        parents: counted(alloc, registers)?,
        starts: filled(alloc, registers, 0)?,
        ends: filled(alloc, registers, 0)?,
        reads,
        given: filled(alloc, lines, 0)?,
        bases,
        firsts: filled(alloc, registers, NONE)?,
        lasts: filled(alloc, registers, 0)?,
        writes: filled(alloc, registers, 0)?,
        latest: counted(alloc, lines)?,
        barriers,
        crossed: filled_flags(alloc, registers)?,
        passed: Vec::new(alloc),
        here: filled(alloc, lines, NONE)?,
        heads: filled(alloc, lines, NONE)?,
        left: lines.saturating_mul(EACH),
    })
}

fn filled(alloc: Global, count: usize, number: usize) -> Result<Vec<usize>, NoMemory> {
    Ok(vec![in alloc; number; count]?)
}

fn filled_flags(alloc: Global, count: usize) -> Result<Vec<bool>, NoMemory> {
    Ok(vec![in alloc; false; count]?)
}

fn counted(alloc: Global, count: usize) -> Result<Vec<usize>, NoMemory> {
    let mut list = Vec::new(alloc);
    for number in 0..count {
        list.push(number)?;
    }
    Ok(list)
}

// The number stands there from now on; nothing changes behind the end.
fn set_at(list: &mut [usize], at: usize, number: usize)
    ensures { length list.new ≡ length list.old }
{
    if at < list.len() {
        list[at] = number;
    }
}

// The points of a line, and the lines to which one comes back from it.
fn add_points(finding: &mut Finding, steps: &StepList, line: usize) {
    if let Some(step) = steps.get(line) {
        for register in step.reads.as_slice() {
            add_point(finding, *register, line);
        }
        if let Some(register) = step.written {
            add_point(finding, register, line);
            let writes = number_at(finding.writes.as_slice(), register);
            set_at(
                finding.writes.as_mut_slice(),
                register,
                writes.saturating_add(1),
            );
        }
        for target in step.aside.as_slice() {
            if *target <= line {
                set_at(finding.latest.as_mut_slice(), *target, line);
            }
        }
    }
}

fn add_point(finding: &mut Finding, register: Register, line: usize) {
    if line < number_at(finding.firsts.as_slice(), register) {
        set_at(finding.firsts.as_mut_slice(), register, line);
    }
    set_at(finding.lasts.as_mut_slice(), register, line);
}

// The names of a register, one behind the other. Those of the innermost forms come first, since they have most words.
fn find_group(
    finding: &mut Finding,
    steps: &StepList,
    register: Register,
    is_passed: bool,
) -> Result<(), NoMemory> {
    let start = finding.owners.len();
    set_at(finding.starts.as_mut_slice(), register, start);
    if is_passed && register < finding.passed.len() {
        let name = new_name(finding, register)?;
        set_at(finding.passed.as_mut_slice(), register, name);
    }
    find_names(finding, steps, register, is_passed)?;
    let end = finding.owners.len();
    set_at(finding.ends.as_mut_slice(), register, end);
    Ok(())
}

// The names of a register, from its last line back to its first one; where one word alone is given to it, its own does.
fn find_names(
    finding: &mut Finding,
    steps: &StepList,
    register: Register,
    is_passed: bool,
) -> Result<(), NoMemory> {
    if !is_passed && number_at(finding.writes.as_slice(), register) < 2 {
        return Ok(());
    }
    let first = number_at(finding.firsts.as_slice(), register);
    let last = last_line(
        finding,
        first,
        number_at(finding.lasts.as_slice(), register),
    );
    if last < first || steps.len() <= last || finding.left < last - first {
        return Ok(());
    }
    finding.left -= last - first;
    for back in 0..last - first {
        look(finding, steps, register, first, last, last - back)?;
    }
    look(finding, steps, register, first, last, first)?;
    let name = number_at(finding.here.as_slice(), first);
    if name != NONE {
        let _one = joined(finding, name, register);
    }
    Ok(())
}

// The last line of loops around the lines from one to another.
fn last_line(finding: &Finding, first: usize, last: usize) -> usize {
    let latest = finding.latest.as_slice();
    let mut end = last;
    if last < latest.len() {
        for line in first..last + 1 {
            if line < latest.len() {
                end = end.max(latest[line]);
            }
        }
    }
    end
}

// The name of the register at a line.
fn look(
    finding: &mut Finding,
    steps: &StepList,
    register: Register,
    first: usize,
    last: usize,
    line: usize,
) -> Result<(), NoMemory> {
    let Some(step) = steps.get(line) else {
        return Ok(());
    };
    let behind = name_behind(finding, step, last, line);
    let mut name = if writes(step, register) {
        set_given(finding, register, line, behind)?;
        NONE
    } else {
        behind
    };
    for target in step.aside.as_slice() {
        name = with_target(finding, register, first, last, line, *target, name)?;
    }
    if step.reads.as_slice().contains(&register) {
        name = with_read(finding, step, register, line, name)?;
    }
    let head = number_at(finding.heads.as_slice(), line);
    if head != NONE && name != NONE {
        name = joined(finding, name, head);
    }
    set_at(finding.heads.as_mut_slice(), line, NONE);
    set_at(finding.here.as_mut_slice(), line, name);
    if name != NONE && is_crossed(finding, register, line) {
        set_flag(finding.crossed.as_mut_slice(), name);
    }
    Ok(())
}

fn writes(step: &Step, register: Register) -> bool {
    match step.written {
        Some(written) => written == register,
        None => false,
    }
}

// The name behind a line, if it goes on to the next one.
fn name_behind(finding: &Finding, step: &Step, last: usize, line: usize) -> usize {
    if step.falls && line < last {
        number_at(finding.here.as_slice(), line + 1)
    } else {
        NONE
    }
}

// The word that a line gives has the name behind it, or one that nothing reads.
fn set_given(
    finding: &mut Finding,
    register: Register,
    line: usize,
    behind: usize,
) -> Result<(), NoMemory> {
    let name = if behind == NONE {
        new_name(finding, register)?
    } else {
        behind
    };
    set_at(finding.given.as_mut_slice(), line, name);
    Ok(())
}

// The name with that at a line to which a line goes aside. At the head of a loop it is not known yet: there it is one that is joined later.
fn with_target(
    finding: &mut Finding,
    register: Register,
    first: usize,
    last: usize,
    line: usize,
    target: usize,
    name: usize,
) -> Result<usize, NoMemory> {
    if target < first || last < target {
        return Ok(name);
    }
    if line < target {
        let there = number_at(finding.here.as_slice(), target);
        return Ok(joined(finding, name, there));
    }
    let mut head = number_at(finding.heads.as_slice(), target);
    if head == NONE {
        head = new_name(finding, register)?;
        set_at(finding.heads.as_mut_slice(), target, head);
    }
    Ok(joined(finding, name, head))
}

// The name by which a line reads the register.
fn with_read(
    finding: &mut Finding,
    step: &Step,
    register: Register,
    line: usize,
    known: usize,
) -> Result<usize, NoMemory> {
    let name = if known == NONE {
        new_name(finding, register)?
    } else {
        known
    };
    let mut at = number_at(finding.bases.as_slice(), line);
    for read in step.reads.as_slice() {
        if *read == register {
            set_at(finding.reads.as_mut_slice(), at, name);
        }
        at = at.saturating_add(1);
    }
    Ok(name)
}

fn new_name(finding: &mut Finding, register: Register) -> Result<usize, NoMemory> {
    let name = finding.owners.len();
    finding.owners.push(register)?;
    finding.parents.push(name)?;
    finding.crossed.push(false)?;
    Ok(name)
}

// Two names are one from now on, the first of both.
fn joined(finding: &mut Finding, one: usize, other: usize) -> usize {
    if one == NONE {
        return other;
    }
    if other == NONE {
        return one;
    }
    let one = root(finding.parents.as_mut_slice(), one);
    let other = root(finding.parents.as_mut_slice(), other);
    let low = one.min(other);
    set_at(finding.parents.as_mut_slice(), one.max(other), low);
    low
}

// The first of all names that are one with a name. Ways to it are made shorter.
fn root(parents: &mut [usize], name: usize) -> usize {
    let mut at = name;
    for _step in 0..parents.len() {
        let parent = number_at(parents, at);
        if parent == at {
            break;
        }
        let next = number_at(parents, parent);
        set_at(parents, at, next);
        at = next;
    }
    at
}

// Whether the barrier at a line crosses a register.
fn is_crossed(finding: &Finding, register: Register, line: usize) -> bool {
    match barrier_at(finding, line) {
        Barrier::Open => false,
        Barrier::ClosedBut(to) => register != to,
        _ => true,
    }
}

fn barrier_at(finding: &Finding, line: usize) -> Barrier {
    if line < finding.barriers.len() {
        finding.barriers[line]
    } else {
        Barrier::Closed
    }
}

fn flag_at(flags: &[bool], at: usize) -> bool {
    at < flags.len() && flags[at]
}

fn set_flag(flags: &mut [bool], at: usize) {
    if at < flags.len() {
        flags[at] = true;
    }
}

// Which of the first parameters outlast calls with the words with which they are passed.
fn tell_crossed(finding: &mut Finding, told: &mut [bool]) {
    for name in 0..finding.crossed.len() {
        if flag_at(finding.crossed.as_slice(), name) {
            let one = root(finding.parents.as_mut_slice(), name);
            set_flag(told, one);
        }
    }
}

// Such parameters are read where they are passed from the first line on, up to one that gives a word to them, that something has to outlast, or
// to which one comes back.
fn read_passed(finding: &mut Finding, steps: &StepList, crossed: &mut [bool]) {
    for line in 0..steps.len() {
        if ends_passing(finding, line) {
            return;
        }
        if let Some(step) = steps.get(line) {
            read_step_passed(finding, step, crossed, line);
        }
    }
}

fn ends_passing(finding: &Finding, line: usize) -> bool {
    match barrier_at(finding, line) {
        Barrier::Open => number_at(finding.latest.as_slice(), line) != line,
        _ => true,
    }
}

fn read_step_passed(finding: &mut Finding, step: &Step, crossed: &mut [bool], line: usize) {
    let mut at = number_at(finding.bases.as_slice(), line);
    for read in step.reads.as_slice() {
        if is_passed(finding, crossed, *read, at) {
            let name = number_at(finding.passed.as_slice(), *read);
            set_at(finding.reads.as_mut_slice(), at, name);
        }
        at = at.saturating_add(1);
    }
    if let Some(written) = step.written {
        if written < crossed.len() {
            crossed[written] = false;
        }
    }
}

// Whether a read is one of a parameter that was told, of the word with which it is passed.
fn is_passed(finding: &mut Finding, told: &[bool], register: Register, at: usize) -> bool {
    let name = number_at(finding.reads.as_slice(), at);
    flag_at(told, register) && root(finding.parents.as_mut_slice(), name) == register
}

// Each read and each given word has the first of all names that are one with its own.
fn settle(finding: &mut Finding) {
    for at in 0..finding.reads.len() {
        let name = number_at(finding.reads.as_slice(), at);
        let one = root(finding.parents.as_mut_slice(), name);
        set_at(finding.reads.as_mut_slice(), at, one);
    }
    for at in 0..finding.given.len() {
        let name = number_at(finding.given.as_slice(), at);
        let one = root(finding.parents.as_mut_slice(), name);
        set_at(finding.given.as_mut_slice(), at, one);
    }
}
