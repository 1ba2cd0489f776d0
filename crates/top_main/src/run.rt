// The actions `run` and `show`: a file compiled as a whole program, and its image run.

ghost use Rattle.std.specs.Prelude.{◌≡◌, ◌≤◌, Some, None};
ghost use Rattle.base.specs.Outside.{Rose};
ghost use Rattle.top_command.specs.declared.command.Action.TheVariants.{Run as ToRun};
ghost use Rattle.back_told.specs.Conditions.{TellsConditions};
ghost use Rattle.top_exec.specs.Runs.{sent_to};
ghost use Rattle.top_main.specs.Images.{IsImageOf};
ghost use Rattle.top_main.specs.Answers.{ProgramAnswers, FileAnswers, IsCounted, RunsFiles};

use crate::ended::answer_of;
use crate::image_run::run_program;
use crate::kept::Kept;
use crate::mode::mode_of;
use crate::reading::read_program;
use back_build::build;
use back_told::law_conditions_told;
use base::{LONGEST_TEXT, NoMemory, Shelf, Sink, Source};
use front_files::Whole;
use rv_machine::Image;
use std::alloc::Global;
use top_command::Action;
use top_exec::{Bounds, LoadStop, loading};
use top_lines::CommandAnswer;

/// What is answered of a program whose image ran, how many words the image has, and how many instructions were
/// executed.
#[derive(Drop)]
pub(crate) struct ProgramRun {
    pub answer: CommandAnswer,
    pub words: u32,
    pub executed: u64,
}

/// Judges the file's text as a whole program, by `show` with the value of its last form printed, compiles it, and runs at most
/// so many instructions of its image, which is kept. `ReadFault` and `WriteFault` only where the count of the source's or the
/// sink's faults rose.
pub(crate) fn run_file<F: Shelf, S: Source, O: Sink>(
    alloc: Global,
    action: Action,
    bounds: Bounds,
    file: &str,
    shelf: &mut F,
    input: &mut S,
    out: &mut O,
    kept: &mut Kept,
) -> CommandAnswer
    requires runs { RunsFiles action }
    requires most { bounds.arena ≤ 16777216 }
    requires empty { kept.old.image ≡ None }
    ensures { FileAnswers result action (F.holds shelf.old file.now) kept.new.image bounds.arena bounds.steps
        (S.left input.old) (S.left input.new)
        (sent_to (O.given out.old) (O.writes out.old) (O.given out.new) (O.writes out.new))
        (Rose (F.faults shelf.old) (F.faults shelf.new)) (Rose (S.faults input.old) (S.faults input.new))
        (Rose (O.faults out.old) (O.faults out.new)) ((out.new ≡ out.old) × (input.new ≡ input.old)) }
{
    let text = match loading::load(alloc, shelf, file, LONGEST_TEXT + 1) {
        Ok(text) => text,
        Err(LoadStop::Failed) => return CommandAnswer::FileFault,
        Err(LoadStop::NoMemory) => return CommandAnswer::NoMemory,
    };
    match read_program(alloc, text.as_slice(), mode_of(action)) {
        Ok(whole) => {
            drop(text);
            let ProgramRun { answer, .. } = run(alloc, &whole, bounds, input, out, kept);
            drop(whole);
            answer
        }
        Err(stop) => CommandAnswer::of_stop(text, stop),
    }
}

/// Compiles a whole program, runs its image and keeps it. A program that is not compiled is answered as want of memory.
pub(crate) fn run<S: Source, O: Sink>(
    alloc: Global,
    whole: &Whole,
    bounds: Bounds,
    input: &mut S,
    out: &mut O,
    kept: &mut Kept,
) -> ProgramRun
    requires most { bounds.arena ≤ 16777216 }
    ensures answer { ProgramAnswers result.answer ToRun whole.now.names whole.now.program kept.new.image bounds.arena bounds.steps
        (S.left input.old) (S.left input.new)
        (sent_to (O.given out.old) (O.writes out.old) (O.given out.new) (O.writes out.new))
        (Rose (S.faults input.old) (S.faults input.new)) (Rose (O.faults out.old) (O.faults out.new))
        ((out.new ≡ out.old) × (input.new ≡ input.old)) }
    ensures counted { IsCounted kept.new.image bounds.arena bounds.steps (S.left input.old) result }
    ensures count { O.faults out.old ≤ O.faults out.new }
{
    law_conditions_told();
    match build(alloc, &whole.program, &whole.names) {
        Ok(built) => {
            let image = built.image;
            let ran = run_built(alloc, whole, &image, bounds, input, out);
            kept.image = Some(image);
            ran
        }
        Err(_) => ProgramRun {
            answer: CommandAnswer::NoMemory,
            words: 0,
            executed: 0,
        },
    }
}

// Runs the image of a program where the arena has room for it.
fn run_built<S: Source, O: Sink>(
    alloc: Global,
    whole: &Whole,
    image: &Image,
    bounds: Bounds,
    input: &mut S,
    out: &mut O,
) -> ProgramRun
    requires most { bounds.arena ≤ 16777216 }
    requires is_image { IsImageOf whole.now.names whole.now.program image.now }
    requires tells { TellsConditions whole.now.names whole.now.program image.now }
    ensures answer { ProgramAnswers result.answer ToRun whole.now.names whole.now.program (Some image.now) bounds.arena bounds.steps
        (S.left input.old) (S.left input.new)
        (sent_to (O.given out.old) (O.writes out.old) (O.given out.new) (O.writes out.new))
        (Rose (S.faults input.old) (S.faults input.new)) (Rose (O.faults out.old) (O.faults out.new))
        ((out.new ≡ out.old) × (input.new ≡ input.old)) }
    ensures counted { IsCounted (Some image.now) bounds.arena bounds.steps (S.left input.old) result }
    ensures count { O.faults out.old ≤ O.faults out.new }
{
    let words = image.words();
    if bounds.arena < words {
        return ProgramRun {
            answer: CommandAnswer::ArenaFull {
                asked: words as u64,
                left: bounds.arena as u64,
            },
            words,
            executed: 0,
        };
    }
    match run_program(alloc, whole, image, bounds, input, out) {
        Ok(ended) => ProgramRun {
            answer: answer_of(alloc, whole, bounds.steps, ended.end, ended.told),
            words,
            executed: ended.executed,
        },
        Err(NoMemory) => ProgramRun {
            answer: CommandAnswer::NoMemory,
            words,
            executed: 0,
        },
    }
}
