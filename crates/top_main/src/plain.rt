// The action `plain`: a file evaluated as a whole program.

ghost use Rattle.std.specs.Prelude.{◌≡◌, None};
ghost use Rattle.base.specs.Outside.{Rose};
ghost use Rattle.top_exec.specs.Runs.{sent_to};
ghost use Rattle.top_main.specs.Answers.{ProgramAnswers, FileAnswers};
ghost use Rattle.top_command.specs.declared.command.Action.TheVariants.{Plain as ToEvaluate};

use crate::ended::answer_of;
use crate::reading::read_program;
use base::{LONGEST_TEXT, NoMemory, Shelf, Sink, Source};
use eval_run::{Counted, evaluate_counted};
use front_files::{Mode, Whole};
use std::alloc::Global;
use top_exec::{Bounds, LoadStop, loading};
use top_lines::CommandAnswer;

/// Judges the file's text as a whole program, and evaluates it within so many levels and words. `ReadFault` and
/// `WriteFault` only where the count of the source's or the sink's faults rose.
pub(crate) fn plain_file<F: Shelf, S: Source, O: Sink>(
    alloc: Global,
    bounds: Bounds,
    file: &str,
    shelf: &mut F,
    input: &mut S,
    out: &mut O,
) -> CommandAnswer
    ensures { FileAnswers result ToEvaluate (F.holds shelf.old file.now) None bounds.arena bounds.steps
        (S.left input.old) (S.left input.new)
        (sent_to (O.given out.old) (O.writes out.old) (O.given out.new) (O.writes out.new))
        (Rose (F.faults shelf.old) (F.faults shelf.new)) (Rose (S.faults input.old) (S.faults input.new))
        (Rose (O.faults out.old) (O.faults out.new)) ((out.new ≡ out.old) × (input.new ≡ input.old)) }
{
    let text = match loading::load(alloc, shelf, file, LONGEST_TEXT + 1) {
        Ok(text) => text,
        Err(LoadStop::Failed) => return CommandAnswer::FileFault,
        Err(LoadStop::NoMemory) => return CommandAnswer::NoMemory,
    };
    match read_program(alloc, text.as_slice(), Mode::Run) {
        Ok(whole) => {
            drop(text);
            let answer = plain(alloc, &whole, bounds, input, out);
            drop(whole);
            answer
        }
        Err(stop) => CommandAnswer::of_stop(text, stop),
    }
}

// Evaluates a whole program.
fn plain<S: Source, O: Sink>(
    alloc: Global,
    whole: &Whole,
    bounds: Bounds,
    input: &mut S,
    out: &mut O,
) -> CommandAnswer
    ensures { ProgramAnswers result ToEvaluate whole.now.names whole.now.program None bounds.arena bounds.steps
        (S.left input.old) (S.left input.new)
        (sent_to (O.given out.old) (O.writes out.old) (O.given out.new) (O.writes out.new))
        (Rose (S.faults input.old) (S.faults input.new)) (Rose (O.faults out.old) (O.faults out.new))
        ((out.new ≡ out.old) × (input.new ≡ input.old)) }
{
    let levels = u64::from(bounds.steps);
    let words = u64::from(bounds.arena);
    match evaluate_counted(
        alloc,
        &whole.program,
        &whole.names,
        levels,
        words,
        input,
        out,
    ) {
        Ok(Counted { end, told, .. }) => answer_of(alloc, whole, bounds.steps, end, Some(told)),
        Err(NoMemory) => CommandAnswer::NoMemory,
    }
}
