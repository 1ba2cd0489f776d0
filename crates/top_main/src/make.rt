// The action `make`: the text of a number compiled as a whole program, its image run, and the counts told.

ghost use Rattle.std.specs.Prelude.{◌≡◌, ◌≤◌, ℕ, List, Option, None};
ghost use Rattle.base.specs.Outside.{Rose};
ghost use Rattle.base.specs.Given.{WasGiven, WasGivenFront};
ghost use Rattle.lang_meaning.specs.ProgramCounts.{program_nodes};
ghost use Rattle.top_command.specs.declared.command.Action.TheVariants.{Make as ToMake};
ghost use Rattle.top_lines.specs.Lines.{counts_line};
ghost use Rattle.top_exec.specs.Runs.{sent_to};
ghost use Rattle.top_main.specs.Answers.{ProgramAnswers, FileAnswers, BytesAnswers, MadeAnswers};

use crate::kept::Kept;
use crate::reading::read_program;
use crate::run::{ProgramRun, run};
use base::{Failed, NoMemory, Sink, Source};
use front_files::{Mode, Whole};
use std::alloc::Global;
use top_exec::Bounds;
use top_lines::{CommandAnswer, write_counts};
use top_made::generate;

/// Makes the text of the number, judges it as a whole program, compiles it, runs at most so many instructions of its image, which
/// is kept, and tells behind a value the counts. `ReadFault` and `WriteFault` only where the count of the source's or the sink's
/// faults rose.
pub(crate) fn make_text<S: Source, O: Sink>(
    alloc: Global,
    number: u32,
    bounds: Bounds,
    input: &mut S,
    out: &mut O,
    kept: &mut Kept,
) -> CommandAnswer
    requires most { bounds.arena ≤ 16777216 }
    requires empty { kept.old.image ≡ None }
    ensures { (held : Option (List ℕ)) → FileAnswers result (ToMake number) held kept.new.image bounds.arena bounds.steps
        (S.left input.old) (S.left input.new)
        (sent_to (O.given out.old) (O.writes out.old) (O.given out.new) (O.writes out.new))
        ⊥ (Rose (S.faults input.old) (S.faults input.new))
        (Rose (O.faults out.old) (O.faults out.new)) ((out.new ≡ out.old) × (input.new ≡ input.old)) }
{
    let text = match generate(alloc, number) {
        Ok(text) => text,
        Err(NoMemory) => return CommandAnswer::NoMemory,
    };
    match read_program(alloc, text.as_slice(), Mode::Run) {
        Ok(whole) => {
            drop(text);
            let answer = make(alloc, &whole, bounds, input, out, kept);
            drop(whole);
            answer
        }
        Err(stop) => CommandAnswer::of_stop(text, stop),
    }
}

// Compiles a whole program, runs its image and keeps it, and tells behind a value the counts.
fn make<S: Source, O: Sink>(
    alloc: Global,
    whole: &Whole,
    bounds: Bounds,
    input: &mut S,
    out: &mut O,
    kept: &mut Kept,
) -> CommandAnswer
    requires most { bounds.arena ≤ 16777216 }
    ensures { (number : ℕ) → ProgramAnswers result (ToMake number) whole.now.names whole.now.program kept.new.image bounds.arena bounds.steps
        (S.left input.old) (S.left input.new)
        (sent_to (O.given out.old) (O.writes out.old) (O.given out.new) (O.writes out.new))
        (Rose (S.faults input.old) (S.faults input.new)) (Rose (O.faults out.old) (O.faults out.new))
        ((out.new ≡ out.old) × (input.new ≡ input.old)) }
{
    let ran = run(alloc, whole, bounds, input, out, kept);
    made(whole, ran, out)
}

// The answer of a run, where behind a value the counts are told.
fn made<O: Sink>(whole: &Whole, ran: ProgramRun, out: &mut O) -> CommandAnswer
    ensures { MadeAnswers result ran (program_nodes whole.now.program) (O.given out.old) (O.given out.new)
        (Rose (O.faults out.old) (O.faults out.new)) (out.new ≡ out.old) }
{
    let ProgramRun {
        answer,
        words,
        executed,
    } = ran;
    match answer {
        CommandAnswer::Done => tell_counts(whole.program.nodes(), u64::from(words), executed, out),
        other => other,
    }
}

// Tells the counts.
fn tell_counts<O: Sink>(nodes: u64, words: u64, executed: u64, out: &mut O) -> CommandAnswer
    ensures { BytesAnswers result (counts_line nodes words executed) (O.given out.old) (O.given out.new)
        (Rose (O.faults out.old) (O.faults out.new)) }
{
    match write_counts(out, nodes, words, executed) {
        Ok(()) => CommandAnswer::Done,
        Err(Failed) => CommandAnswer::WriteFault,
    }
}
