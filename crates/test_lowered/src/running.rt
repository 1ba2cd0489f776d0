// A program run twice: by its meaning, and as an image on the machine.

ghost use Rattle.std.specs.Prelude.{◌≡◌, IfSome};

use crate::ends::{End, Told};
use base::{Bytes, CallList, MemSink, MemSource, Place};
use eval_run::evaluate_counted;
use front_files::Whole;
use lang_meaning::EvaluationEnd;
use rv_machine::{Ending, Image, Machine};
use test_rows::RowAnswer;

// The bytes that an output keeps.
const ROOM: usize = 1_048_576;

// The levels of an evaluation.
const LEVELS: u64 = 10_000_000;

// The most words of an arena.
const MOST_WORDS: u32 = 16_777_216;

/// The words that a program may take beside those of its image, and the most instructions of its run.
#[derive(Clone, Copy)]
pub struct Limits {
    pub words: u32,
    pub instructions: u32,
}

/// What the program does by its meaning, within so many words, and the units that it counts.
pub fn evaluated(got: &mut RowAnswer, whole: &Whole, words: u32, input: &[u8]) -> Option<Told> {
    let mut source = source_of(got, input)?;
    let Some(mut sink) = sink_of(got) else {
        drop(source);
        return None;
    };
    let ended = evaluate_counted(
        got.alloc,
        &whole.program,
        &whole.names,
        LEVELS,
        u64::from(words),
        &mut source,
        &mut sink,
    );
    drop(source);
    let told = match got.kept(ended) {
        Some(counted) => told_of(got, end_of_evaluation(counted.end), &sink, counted.units),
        None => None,
    };
    drop(sink);
    told
}

fn source_of(got: &mut RowAnswer, input: &[u8]) -> Option<MemSource> {
    let input = got.kept(Bytes::from_slice(got.alloc, input))?;
    Some(MemSource::new(input, CallList::new(got.alloc)))
}

fn sink_of(got: &mut RowAnswer) -> Option<MemSink> {
    got.kept(MemSink::new(got.alloc, ROOM, CallList::new(got.alloc)))
}

fn told_of(got: &mut RowAnswer, end: End, sink: &MemSink, count: u64) -> Option<Told> {
    let printed = got.kept(Bytes::from_slice(got.alloc, sink.bytes()))?;
    Some(Told {
        end,
        printed,
        count,
    })
}

fn end_of_evaluation(end: EvaluationEnd) -> End {
    match end {
        EvaluationEnd::Value => End::Value,
        EvaluationEnd::Unhandled { class, site } => End::Unhandled(class, site),
        EvaluationEnd::Full { .. } => End::Full,
        EvaluationEnd::More => End::More,
        EvaluationEnd::Spent => End::More,
        EvaluationEnd::ReadFault => End::Fault,
        EvaluationEnd::WriteFault => End::Fault,
    }
}

/// What the image does on the machine, in an arena with so many words more than it has.
pub fn machine_run(
    got: &mut RowAnswer,
    whole: &Whole,
    image: &Image,
    limits: Limits,
    input: &[u8],
) -> Option<Told> {
    let mut source = source_of(got, input)?;
    let told = run_with(got, whole, image, limits, &mut source);
    drop(source);
    told
}

fn run_with(
    got: &mut RowAnswer,
    whole: &Whole,
    image: &Image,
    limits: Limits,
    source: &mut MemSource,
) -> Option<Told> {
    let mut sink = sink_of(got)?;
    let Some(mut machine) = loaded(got, image, limits.words) else {
        drop(sink);
        return None;
    };
    let ending = machine.run(u64::from(limits.instructions), source, &mut sink);
    let end = end_of_run(whole, ending, machine.register(11));
    let told = told_of(got, end, &sink, machine.count());
    drop(machine);
    drop(sink);
    told
}

// A machine at the start of the image.
fn loaded(got: &mut RowAnswer, image: &Image, words: u32) -> Option<Machine>
    ensures { IfSome result (λ m. m.count ≡ 0) }
{
    let count = image.words();
    let room = words.min(MOST_WORDS - count);
    let mut machine = got.kept(Machine::new(got.alloc, count + room))?;
    match machine.load(image) {
        Ok(()) => Some(machine),
        Err(_) => {
            got.put("no room for the image");
            drop(machine);
            None
        }
    }
}

fn end_of_run(whole: &Whole, ending: Ending, site: u32) -> End {
    match ending {
        Ending::Halt(_) => End::Value,
        Ending::Unhandled(class) => End::Unhandled(class as usize, place_of(whole, site)),
        Ending::Full { .. } => End::Full,
        Ending::Budget => End::More,
        Ending::Trap(kind, address) => End::Trap(kind, address),
        Ending::ReadFault => End::Fault,
        Ending::WriteFault => End::Fault,
    }
}

// The place of a site, by its number from 1.
fn place_of(whole: &Whole, site: u32) -> Place {
    let nowhere = Place { line: 0, column: 0 };
    match (site as usize).checked_sub(1) {
        None => nowhere,
        Some(at) => match whole.program.rows().sites.get(at) {
            Some(place) => *place,
            None => nowhere,
        },
    }
}
