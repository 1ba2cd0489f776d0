// Trees of steps made lists of lines.

ghost use Rattle.std.specs.Prelude.{◌≡◌, ◌++◌, length, IfOk, OnOk};
ghost use Rattle.mid_code.specs.MidCode.{MidStep, choose, switch, repeat, with_block, lend, code_of};
ghost use Rattle.mid_code.specs.model.View.{codes_of};
ghost use Rattle.mid_lines.specs.Flattened.{step_lines, code_lines, codes_lines, code_targets, code_jumps, procedure_lines, program_lines};

mod copies;
mod jumps;

use crate::flattening::copies::{copy_of_operation, copy_of_words};
use crate::flattening::jumps::write_jumps;
use crate::line::{Line, LineList, LineProcedure, LineProcedureList, LineProgram, TargetList};
use base::NoMemory;
use mid_code::{
    CaseList, Code, CodeStep, Counted, MidProcedure, MidProgram, Register, StepKind, Test,
};
use std::alloc::Global;

/// The program with the code of each of its procedures as lines.
pub fn program_lines(alloc: Global, program: &MidProgram) -> Result<LineProgram, NoMemory>
    ensures { IfOk result (λ made. made ≡ program_lines program.now) }
{
    let mut procedures = LineProcedureList::new(alloc);
    for procedure in program.procedures.as_slice() {
        procedures.push(lines_of(alloc, procedure)?)?;
    }
    let laid = copy_of_words(alloc, &program.laid)?;
    Ok(LineProgram { procedures, laid })
}

/// The procedure with its code as lines.
pub fn lines_of(alloc: Global, procedure: &MidProcedure) -> Result<LineProcedure, NoMemory>
    ensures { IfOk result (λ made. made ≡ procedure_lines procedure.now) }
{
    let mut lines = LineList::new(alloc);
    append_code(alloc, &mut lines, &procedure.body)?;
    Ok(LineProcedure {
        counted: procedure.counted,
        parameters: procedure.parameters,
        registers: procedure.registers,
        frame: procedure.frame,
        lines,
    })
}

// Appends the lines of code, which begin behind those that are there.
#[cycle(flat)]
#[tactic(auto, using(mid_code::specs::model::Sizes::step_turn))]
fn append_code(alloc: Global, lines: &mut LineList, code: &Code) -> Result<(), NoMemory>
    ensures { OnOk result (lines.new ≡ lines.old ++ code_lines (length lines.old) (code_of code.now)) }
{
    for step in code.as_slice() {
        append_step(alloc, lines, step)?;
    }
    Ok(())
}

#[cycle(flat)]
fn append_step(alloc: Global, lines: &mut LineList, step: &CodeStep) -> Result<(), NoMemory>
    ensures { OnOk result (lines.new ≡ lines.old ++ step_lines (length lines.old) step.now) }
{
    match &step.kind {
        StepKind::Do(operation) => {
            let operation = copy_of_operation(alloc, operation)?;
            lines.push(Line::Do(operation))
        }
        StepKind::Choose(test, first, second) => append_choice(alloc, lines, *test, first, second),
        StepKind::Switch { register, codes } => append_switch(alloc, lines, *register, codes),
        StepKind::Repeat {
            counted,
            head,
            test,
            body,
        } => append_loop(alloc, lines, *counted, head, *test, body),
        StepKind::WithBlock {
            block,
            words,
            word,
            inside,
            landing,
        } => append_record(alloc, lines, *block, *words, *word, inside, landing),
        StepKind::Lend {
            block,
            words,
            inside,
        } => append_lent(alloc, lines, *block, *words, inside),
        StepKind::Return(word) => lines.push(Line::Return(*word)),
        StepKind::Cut { block, word } => lines.push(Line::Cut {
            block: *block,
            word: *word,
        }),
        StepKind::Halt(word) => lines.push(Line::Halt(*word)),
        StepKind::Unhandled {
            class,
            site,
            condition,
        } => lines.push(Line::Unhandled {
            class: *class,
            site: *site,
            condition: *condition,
        }),
    }
}

// The branch and the jumps of a choice are written again when it is known where they go.
#[cycle(flat)]
fn append_choice(
    alloc: Global,
    lines: &mut LineList,
    test: Test,
    first: &Code,
    second: &Code,
) -> Result<(), NoMemory>
    ensures { OnOk result (lines.new ≡ lines.old ++ step_lines (length lines.old) (choose test (code_of first.now) (code_of second.now))) }
{
    let branch_at = lines.len();
    lines.push(Line::Jump(0))?;
    append_code(alloc, lines, first)?;
    let jump_at = lines.len();
    lines.push(Line::Jump(0))?;
    let otherwise = lines.len();
    append_code(alloc, lines, second)?;
    let last_at = lines.len();
    lines.push(Line::Jump(0))?;
    let end = lines.len();
    lines.replace(branch_at, Line::Branch { test, otherwise });
    lines.replace(jump_at, Line::Jump(end));
    lines.replace(last_at, Line::Jump(end));
    Ok(())
}

// The switch, and the jumps behind its codes, are written again when it is known where they go.
#[cycle(flat)]
fn append_switch(
    alloc: Global,
    lines: &mut LineList,
    register: Register,
    codes: &CaseList,
) -> Result<(), NoMemory>
    ensures { OnOk result (lines.new ≡ lines.old ++ step_lines (length lines.old) (switch register (codes_of codes.now))) }
{
    let switch_at = lines.len();
    lines.push(Line::Jump(0))?;
    let mut targets = TargetList::new(alloc);
    let mut jumps = TargetList::new(alloc);
    append_codes(alloc, lines, &mut targets, &mut jumps, codes)?;
    let end = lines.len();
    write_jumps(lines, &jumps, end);
    lines.replace(switch_at, Line::Switch { register, targets });
    Ok(())
}

// Appends the codes of a switch, each with a jump to line 0 behind it, and the lines at which codes and jumps stand.
#[cycle(flat)]
#[tactic(auto, using(mid_code::specs::model::Sizes::case_turn))]
fn append_codes(
    alloc: Global,
    lines: &mut LineList,
    targets: &mut TargetList,
    jumps: &mut TargetList,
    codes: &CaseList,
) -> Result<(), NoMemory>
    ensures appended { OnOk result (lines.new ≡ lines.old ++ codes_lines (length lines.old) 0 (codes_of codes.now)) }
    ensures begun { OnOk result (targets.new ≡ targets.old ++ code_targets (length lines.old) (codes_of codes.now)) }
    ensures left { OnOk result (jumps.new ≡ jumps.old ++ code_jumps (length lines.old) (codes_of codes.now)) }
{
    for case in codes.as_slice() {
        targets.push(lines.len())?;
        append_code(alloc, lines, &case.code)?;
        jumps.push(lines.len())?;
        lines.push(Line::Jump(0))?;
    }
    Ok(())
}

// The branch of a loop is written again when it is known where the loop ends.
#[cycle(flat)]
fn append_loop(
    alloc: Global,
    lines: &mut LineList,
    counted: Counted,
    head: &Code,
    test: Test,
    body: &Code,
) -> Result<(), NoMemory>
    ensures { OnOk result (lines.new ≡ lines.old ++ step_lines (length lines.old) (repeat counted (code_of head.now) test (code_of body.now))) }
{
    let start = lines.len();
    append_code(alloc, lines, head)?;
    let branch_at = lines.len();
    lines.push(Line::Jump(0))?;
    append_code(alloc, lines, body)?;
    lines.push(Line::Jump(start))?;
    let otherwise = lines.len();
    lines.replace(branch_at, Line::Branch { test, otherwise });
    Ok(())
}

// The laying of a record and the jump over its landing are written again when it is known where the landing begins and ends.
#[cycle(flat)]
fn append_record(
    alloc: Global,
    lines: &mut LineList,
    block: Register,
    words: u32,
    word: Register,
    inside: &Code,
    landing: &Code,
) -> Result<(), NoMemory>
    ensures { OnOk result (lines.new ≡ lines.old ++ step_lines (length lines.old) (with_block block words word (code_of inside.now) (code_of landing.now))) }
{
    let lay_at = lines.len();
    lines.push(Line::Jump(0))?;
    append_code(alloc, lines, inside)?;
    lines.push(Line::GiveBack(words))?;
    let jump_at = lines.len();
    lines.push(Line::Jump(0))?;
    let landing_at = lines.len();
    lines.push(Line::Landed(word))?;
    append_code(alloc, lines, landing)?;
    lines.push(Line::GiveBack(words))?;
    let end = lines.len();
    lines.replace(
        lay_at,
        Line::Lay {
            block,
            words,
            landing: landing_at,
        },
    );
    lines.replace(jump_at, Line::Jump(end));
    Ok(())
}

#[cycle(flat)]
fn append_lent(
    alloc: Global,
    lines: &mut LineList,
    block: Register,
    words: Register,
    inside: &Code,
) -> Result<(), NoMemory>
    ensures { OnOk result (lines.new ≡ lines.old ++ step_lines (length lines.old) (lend block words (code_of inside.now))) }
{
    lines.push(Line::Lend { block, words })?;
    append_code(alloc, lines, inside)?;
    lines.push(Line::GiveBackLent)
}
