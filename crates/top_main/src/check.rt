// The action `check`: a file judged as a whole program, and what its forms are warned of.

ghost use Rattle.std.specs.Prelude.{◌≡◌, ℕ, List, Option, IfOk, map};
ghost use Rattle.base.specs.Outside.{Rose};
ghost use Rattle.top_command.specs.declared.command.Action.TheVariants.{Check as ToCheck};
ghost use Rattle.top_main.specs.Theorem.{IsTextOf, AreWarned, worded};
ghost use Rattle.top_main.specs.Answers.{CheckAnswers, IsWarnedOf};

use crate::ended::name_text;
use crate::reading::read_program;
use base::{Bytes, LONGEST_TEXT, Names, NoMemory, Shelf};
use front_files::{Mode, Whole};
use lang_warnings::{Warning, warnings_of};
use std::alloc::Global;
use top_exec::{LoadStop, loading};
use top_lines::{CommandAnswer, WarningLine, WarningLines};

/// Judges the file's text: what its forms are warned of, where it is a whole program. Nothing is written yet.
pub(crate) fn check_file<F: Shelf>(alloc: Global, file: &str, shelf: &mut F) -> CommandAnswer
    ensures { CheckAnswers result (F.holds shelf.old file.now) (Rose (F.faults shelf.old) (F.faults shelf.new)) }
{
    match loading::load(alloc, shelf, file, LONGEST_TEXT + 1) {
        Ok(text) => check(alloc, text),
        Err(LoadStop::Failed) => CommandAnswer::FileFault,
        Err(LoadStop::NoMemory) => CommandAnswer::NoMemory,
    }
}

// Judges a text.
fn check(alloc: Global, text: Bytes) -> CommandAnswer
    ensures { (held : Option (List ℕ)) → IsTextOf ToCheck held text → CheckAnswers result held ⊥ }
{
    match read_program(alloc, text.as_slice(), Mode::Run) {
        Ok(whole) => {
            drop(text);
            let answer = checked(alloc, &whole);
            drop(whole);
            answer
        }
        Err(stop) => CommandAnswer::of_stop(text, stop),
    }
}

// The answer of a text that is this program.
fn checked(alloc: Global, whole: &Whole) -> CommandAnswer
    ensures { IsWarnedOf result whole.now.names whole.now.program }
{
    match warned(alloc, whole) {
        Ok(lines) => CommandAnswer::Checked(lines),
        Err(NoMemory) => CommandAnswer::NoMemory,
    }
}

// What a program is warned of, with names in words.
fn warned(alloc: Global, whole: &Whole) -> Result<WarningLines, NoMemory>
    ensures { IfOk result (λ lines. AreWarned whole.now.names whole.now.program lines) }
{
    let warnings = warnings_of(alloc, &whole.names, whole.program.rows())?;
    let lines = worded_all(alloc, &whole.names, warnings.as_slice())?;
    drop(warnings);
    Ok(lines)
}

fn worded_all(alloc: Global, names: &Names, warnings: &[Warning]) -> Result<WarningLines, NoMemory>
    ensures { IfOk result (λ lines. lines ≡ map (worded names.now) warnings.now) }
{
    let mut lines = WarningLines::new(alloc);
    for warning in warnings {
        lines.push(worded(alloc, names, *warning)?)?;
    }
    Ok(lines)
}

fn worded(alloc: Global, names: &Names, warning: Warning) -> Result<WarningLine, NoMemory>
    ensures { IfOk result (λ line. line ≡ worded names.now warning) }
{
    let name = Bytes::from_slice(alloc, name_text(names, warning.name))?;
    Ok(WarningLine {
        place: warning.place,
        name,
        fault: warning.fault,
    })
}
