// A run of the image of a whole program, and how it ends.

ghost use Rattle.std.specs.Prelude.{◌≡◌, ◌≤◌, ◌<◌, ◌^◌, ℕ, length, slice_index, Some, IfOk, IfSome, OnErr};
ghost use Rattle.base.specs.Outside.{Rose};
ghost use Rattle.lang_meaning.specs.Evaluates.{Tells};
ghost use Rattle.lang_meaning.specs.Meaning.{place_of_site};
ghost use Rattle.top_exec.specs.Runs.{sent_to};
ghost use Rattle.top_main.specs.Images.{IsImageOf};
ghost use Rattle.back_told.specs.Conditions.{TellsConditions};
ghost use Rattle.top_main.specs.Theorem.{RunComes, ImageTells};
ghost use Rattle.top_main.specs.Answers.{EndTold, Executed, end_told, site_told};
ghost use Rattle.top_main.specs.ToldRuns.{IsToldOf};

use base::{Bytes, NoMemory, Place, Sink, Source};
use front_files::Whole;
use lang_meaning::{EvaluationEnd, SiteId};
use mid_told::tell_condition;
use rv_machine::{Ending, Image, Machine};
use std::alloc::Global;
use top_exec::{Bounds, ImageEnd, ImageRun, run_machine};

// The register that has the word of a condition.
const CONDITION_REGISTER: u32 = 12;

/// How a program came to an end whose image ran, how many instructions were executed, and what is told of the condition
/// where it ended by one; nothing where memory was wanting to tell it.
#[derive(Drop)]
pub(crate) struct ProgramEnd {
    pub end: EvaluationEnd,
    pub executed: u64,
    pub told: Option<Bytes>,
}

/// Runs at most so many instructions of the image of a program, in an arena of so many words. `ReadFault` and `WriteFault`
/// only where the count of the source's or the sink's faults rose; after `NoMemory` nothing ran.
pub(crate) fn run_program<S: Source, O: Sink>(
    alloc: Global,
    whole: &Whole,
    image: &Image,
    bounds: Bounds,
    input: &mut S,
    out: &mut O,
) -> Result<ProgramEnd, NoMemory>
    requires is_image { IsImageOf whole.now.names whole.now.program image.now }
    requires tells { TellsConditions whole.now.names whole.now.program image.now }
    requires fits { length image.now.words ≤ bounds.arena }
    requires most { bounds.arena ≤ 16777216 }
    ensures comes { IfOk result (λ e. RunComes whole.now.names whole.now.program image.now bounds.arena bounds.steps
        (S.left input.old) (S.left input.new)
        (sent_to (O.given out.old) (O.writes out.old) (O.given out.new) (O.writes out.new)) e.end) }
    ensures fault { IfOk result (λ e. Tells e.end (Rose (S.faults input.old) (S.faults input.new)) (Rose (O.faults out.old) (O.faults out.new))) }
    ensures tells { IfOk result (λ e. EndTold (ImageTells whole.now.names whole.now.program (Some image.now) bounds.arena bounds.steps (S.left input.old)) e.end e.told) }
    ensures executed { IfOk result (Executed image.now bounds.arena bounds.steps (S.left input.old)) }
    ensures same { OnErr result ((out.new ≡ out.old) × (input.new ≡ input.old)) }
    ensures count { O.faults out.old ≤ O.faults out.new }
{
    let ran = run_machine(alloc, image, bounds, input, out)?;
    let ended = ran.end;
    let end = end_of(whole, ended);
    let told = told_of(alloc, whole, &ran);
    drop(ran);
    Ok(ProgramEnd {
        end,
        executed: ended.executed,
        told,
    })
}

// What is told of the condition by which a run ended, by the words of its memory; nothing where it ended otherwise, or where
// memory is wanting.
fn told_of(alloc: Global, whole: &Whole, ran: &ImageRun) -> Option<Bytes>
    ensures { IfSome result (IsToldOf whole.now.names whole.now.program.classes ran.now.machine.state) }
{
    let Ending::Unhandled(_) = ran.end.ending else {
        return None;
    };
    let machine: &Machine = &ran.machine;
    let words = machine.arena();
    are_words(words);
    let word = machine.register(CONDITION_REGISTER);
    let classes = &whole.program.rows().classes;
    tell_condition(alloc, &whole.names, classes, words, word).ok()
}

// Words of the machine have 32 bits. It does nothing: that each of them has, it says at its end.
fn are_words(words: &[u32])
    ensures { (i : ℕ) → slice_index words.now i < 2 ^ 32 }
{
    for word in words {
        let _word = *word;
    }
}

// The end of a program whose image ran and ended so. No run traps that was fed its input, by what is known of
// images that were built; but of a run that reads an input which the source does not tell, nothing is known. So a trap is answered
// as a run that goes on, and all that is claimed of that holds of it: there is no input that feeds such a run.
fn end_of(whole: &Whole, ended: ImageEnd) -> EvaluationEnd
    ensures { result ≡ end_told whole.now.program.sites ended.site ended.ending }
{
    match ended.ending {
        Ending::Halt(_) => EvaluationEnd::Value,
        Ending::Unhandled(class) => EvaluationEnd::Unhandled {
            class: class as usize,
            site: place_told(whole, ended.site),
        },
        Ending::Full { asked, left } => EvaluationEnd::Full {
            asked: asked as u64,
            left: left as u64,
        },
        Ending::Budget | Ending::Trap(_, _) => EvaluationEnd::More,
        Ending::ReadFault => EvaluationEnd::ReadFault,
        Ending::WriteFault => EvaluationEnd::WriteFault,
    }
}

// The place of the site with that number; 0:0 of number 0.
fn place_told(whole: &Whole, number: u32) -> Place
    ensures { result ≡ site_told whole.now.program.sites number }
{
    if number == 0 {
        return Place { line: 0, column: 0 };
    }
    place_of(whole, number as usize)
}

// The place of a site; 0:0 where there is no such site.
fn place_of(whole: &Whole, site: SiteId) -> Place
    ensures { result ≡ place_of_site whole.now.program.sites site }
{
    match whole.program.rows().sites.get(site.saturating_sub(1)) {
        Some(place) => *place,
        None => Place { line: 0, column: 0 },
    }
}
