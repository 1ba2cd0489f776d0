// The rows of the table: a program's file, how many words and instructions it may take, and the file of its input.

use crate::building::image_of;
use crate::ends::{Told, put_compared};
use crate::running::{Limits, evaluated, machine_run};
use front_files::{Mode, Whole, read_program};
use front_library::PRELUDE;
use rv_machine::Image;
use std::rt::Files;
use std::{fs, str};
use test_rows::{RowAnswer, Table};

/// What is told of a run.
#[derive(Clone, Copy)]
pub enum Telling {
    /// How it ended, and whether the image did what the program means.
    Ends,
    /// Also the units of the meaning, the instructions that the image took, and its words.
    Counts,
}

/// A table of programs, whose files the runtime has. A row is `FILE WORDS INSTRUCTIONS`, with the file of its input behind a blank where it
/// has one.
#[derive(Drop)]
pub struct Programs<'a, R> {
    pub files: &'a R,
    pub telling: Telling,
}

impl<'a, R: Files + AllocGlobal> Table for Programs<'a, R> {
    fn answer_row(&self, got: &mut RowAnswer, input: &[u8]) -> Option<()> {
        let row = str::from_utf8(input).ok()?;
        let (name, given) = row.split_once(' ')?;
        let (words, given) = given.split_once(' ')?;
        let (instructions, input) = given.split_once(' ').unwrap_or((given, ""));
        let limits = Limits {
            words: words.parse().ok()?,
            instructions: instructions.parse().ok()?,
        };
        let text = fs::read_to_string(self.files, name).ok()?;
        let told = answer_with(self.files, got, limits, text.as_str(), input, self.telling);
        drop(text);
        told
    }
}

// The answer of a program's text with the input that a file has; with none where there is no file.
fn answer_with<R: Files + AllocGlobal>(
    files: &R,
    got: &mut RowAnswer,
    limits: Limits,
    text: &str,
    input: &str,
    telling: Telling,
) -> Option<()> {
    if input.is_empty() {
        answer(got, limits, text, "", telling);
        return Some(());
    }
    let input = fs::read_to_string(files, input).ok()?;
    answer(got, limits, text, input.as_str(), telling);
    drop(input);
    Some(())
}

// The program of the text behind the library, run twice; each step that gives nothing has told why.
fn answer(got: &mut RowAnswer, limits: Limits, text: &str, input: &str, telling: Telling) {
    match read_program(got.alloc, text.as_bytes(), PRELUDE, Mode::Run) {
        Ok(whole) => {
            build_and_run(got, &whole, limits, input.as_bytes(), telling);
            drop(whole);
        }
        Err(stop) => got.put_stop(stop),
    }
}

fn build_and_run(
    got: &mut RowAnswer,
    whole: &Whole,
    limits: Limits,
    input: &[u8],
    telling: Telling,
) {
    if let Some(image) = image_of(got, whole) {
        run_both(got, whole, &image, limits, input, telling);
        drop(image);
    }
}

fn run_both(
    got: &mut RowAnswer,
    whole: &Whole,
    image: &Image,
    limits: Limits,
    input: &[u8],
    telling: Telling,
) {
    if let Some(meant) = evaluated(got, whole, limits.words, input) {
        run_image(got, whole, &meant, image, limits, input, telling);
        drop(meant);
    }
}

fn run_image(
    got: &mut RowAnswer,
    whole: &Whole,
    meant: &Told,
    image: &Image,
    limits: Limits,
    input: &[u8],
    telling: Telling,
) {
    if let Some(done) = machine_run(got, whole, image, limits, input) {
        put_compared(got, whole, meant, &done);
        if let Telling::Counts = telling {
            got.put(" units ");
            got.put(meant.count);
            got.put(" instructions=");
            got.put(done.count);
            got.put(" words=");
            got.put(image.words());
        }
        drop(done);
    }
}
