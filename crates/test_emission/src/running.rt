// Images of programs, made and run.

use crate::building::Building;
use back_program_code::{ImageError, emit};
use base::{Bytes, CallList, MemSink, MemSource};
use mid_code::MidProgram;
use rv_machine::{Image, Machine};
use test_rows::RowAnswer;

// The bytes that an output keeps.
const ROOM: usize = 64;

// The most instructions of a run.
const MOST: u64 = 1_000_000;

// The most words of an arena.
const MOST_WORDS: u32 = 16_777_216;

/// The words of a program (`Building::take`), ` : `, and the words of the arena beside those of the image, with an input behind a blank. The
/// answer is the words of the image, the ending, how many instructions were executed, and what was put; or why there is no image.
pub fn answer_row(got: &mut RowAnswer, line: &str) -> Option<()> {
    let (words, given) = line.split_once(" : ")?;
    let (room, input) = given.split_once(' ').unwrap_or((given, ""));
    let room: u32 = room.parse().ok()?;
    let program = program_of(got, words)?;
    let told = run_program(got, &program, room, input);
    drop(program);
    told
}

fn program_of(got: &mut RowAnswer, words: &str) -> Option<MidProgram> {
    let mut building = Building::new(got.alloc);
    for word in words.split(' ') {
        if building.take(got, word).is_none() {
            drop(building);
            return None;
        }
    }
    let program = building.program(got);
    drop(building);
    program
}

fn run_program(got: &mut RowAnswer, program: &MidProgram, room: u32, input: &str) -> Option<()> {
    if !program.check() || program.procedures.len() == 0 {
        got.put("not in form");
        return Some(());
    }
    match emit(got.alloc, program, 0) {
        Ok(image) => {
            let told = run_image(got, &image, room, input);
            drop(image);
            told
        }
        Err(ImageError::NoMemory) => None,
        Err(error) => {
            got.put(error);
            Some(())
        }
    }
}

fn run_image(got: &mut RowAnswer, image: &Image, room: u32, input: &str) -> Option<()> {
    if room > MOST_WORDS - image.words() {
        return None;
    }
    let input = got.kept(Bytes::from_slice(got.alloc, input.as_bytes()))?;
    let mut source = MemSource::new(input, CallList::new(got.alloc));
    let told = run_with(got, image, room, &mut source);
    drop(source);
    told
}

fn run_with(got: &mut RowAnswer, image: &Image, room: u32, source: &mut MemSource) -> Option<()> {
    if room > MOST_WORDS - image.words() {
        return None;
    }
    let mut sink = got.kept(MemSink::new(got.alloc, ROOM, CallList::new(got.alloc)))?;
    let Some(mut machine) = got.kept(Machine::new(got.alloc, image.words() + room)) else {
        drop(sink);
        return None;
    };
    if machine.load(image).is_ok() {
        let ending = machine.run(MOST, source, &mut sink);
        got.put("words=");
        got.put(image.words());
        got.put(" ");
        got.put_debug(&ending);
        got.put(" count=");
        got.put(machine.count());
        got.put(" output=");
        got.put_bytes(sink.bytes());
    }
    drop(machine);
    drop(sink);
    Some(())
}
