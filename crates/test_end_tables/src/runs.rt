// Short programs of the machine, loaded, stepped through and run.

ghost use Rattle.std.specs.Prelude.{◌≤◌};

use crate::machine::Running;
use base::{Bytes, CallList, MemSink, MemSource, WordList};
use rv_machine::{Image, Machine};
use test_rows::RowAnswer;

// The bytes that an output keeps.
const ROOM: usize = 64;

// The most words that a program or an arena has.
const MOST_WORDS: u32 = 1_000;

/// What a machine is given, ` : `, and what is done with it then (`Running::act_all`), each with
/// blanks between. It is given the words of a program in hexadecimal, the words of its arena
/// (`arena=N`, and 16 without that), an input (`input=TEXT`), and the numbers of calls of the input
/// and of the output that fail, counted from 0 (`input_fails=N`, `output_fails=N`). An image that
/// is too big is the first answer.
pub fn answer_row(got: &mut RowAnswer, line: &str) -> Option<()> {
    let (given, actions) = line.split_once(" : ")?;
    let mut all = RunInput {
        words: WordList::new(got.alloc),
        arena: 16,
        input: Bytes::new(got.alloc),
        input_fails: CallList::new(got.alloc),
        output_fails: CallList::new(got.alloc),
    };
    if all.take_all(got, given).is_none() {
        drop(all);
        return None;
    }
    let mut running = all.loaded(got)?;
    let acted = running.act_all(got, actions);
    drop(running);
    acted
}

// What a machine is given.
#[derive(Drop)]
struct RunInput {
    words: WordList,
    arena: u32,
    input: Bytes,
    input_fails: CallList,
    output_fails: CallList,
}

impl RunInput {
    // Takes all that the machine is given.
    fn take_all(&mut self, got: &mut RowAnswer, given: &str) -> Option<()> {
        for word in given.split(' ') {
            self.take(got, word)?;
        }
        Some(())
    }

    // Takes one thing more.
    fn take(&mut self, got: &mut RowAnswer, word: &str) -> Option<()> {
        match word.split_once('=') {
            None => {
                let word = u32::from_str_radix(word, 16).ok()?;
                got.add(&mut self.words, word);
            }
            Some(("arena", words)) => self.arena = words.parse().ok()?,
            Some(("input", text)) => got.add_bytes(&mut self.input, text.as_bytes()),
            Some(("input_fails", call)) => got.add(&mut self.input_fails, call.parse().ok()?),
            Some(("output_fails", call)) => got.add(&mut self.output_fails, call.parse().ok()?),
            Some(_) => return None,
        }
        Some(())
    }

    // The machine with the program at address 0; that the image is too big is told.
    fn loaded(self, got: &mut RowAnswer) -> Option<Running> {
        let is_fit = self.words.len() != 0 && self.words.len() <= MOST_WORDS as usize;
        if !is_fit || self.arena == 0 || self.arena > MOST_WORDS {
            drop(self);
            return None;
        }
        let RunInput {
            words,
            arena,
            input,
            input_fails,
            output_fails,
        } = self;
        let image = Image { entry: 0, words };
        let source = MemSource::new(input, input_fails);
        let Some(sink) = got.kept(MemSink::new(got.alloc, ROOM, output_fails)) else {
            drop(image);
            drop(source);
            return None;
        };
        let Some(machine) = loaded_machine(got, arena, image) else {
            drop(source);
            drop(sink);
            return None;
        };
        Some(Running {
            machine,
            source,
            sink,
        })
    }
}

fn loaded_machine(got: &mut RowAnswer, arena: u32, image: Image) -> Option<Machine>
    requires some { 1 ≤ arena }
    requires bounded { arena ≤ 1000 }
{
    let Some(mut machine) = got.kept(Machine::new(got.alloc, arena)) else {
        drop(image);
        return None;
    };
    if let Err(refusal) = machine.load(&image) {
        got.put_debug(&refusal);
    }
    drop(image);
    Some(machine)
}
