// Files, and what is told of them.

use crate::definitions::put_definitions;
use crate::programs::put_program;
use base::Stop;
use front_files::{Mode, Whole, read_program};
use lang_meaning::ProgramRows;
use test_checker::is_whole;
use test_rows::{RowAnswer, Table};

/// What is told of the program of a file. A refusal is told by its reason and its place.
#[derive(Clone, Copy)]
pub enum Told {
    /// `taken`.
    Taken,
    /// `taken`, with the numbers of main forms, functions and literals.
    Counts,
    /// `whole` or `not whole` by the checker of programs, which is asked although the type of a program says so.
    Wholeness,
    /// The program.
    Program,
    /// The program, and behind it the classes, generic functions and functions that it defines.
    Definitions,
    /// The place of each site.
    Sites,
}

/// The tables whose inputs are texts of files that no prelude stands before.
pub struct Files(pub Told);

impl Table for Files {
    fn answer_row(&self, got: &mut RowAnswer, input: &[u8]) -> Option<()> {
        let read = read_program(got.alloc, input, b"", Mode::Run);
        put_read(got, self.0, read)
    }
}

/// The tables whose inputs are a line `run` or `show`, a prelude of one line, and the text of a file.
pub struct Preludes(pub Told);

impl Table for Preludes {
    fn answer_row(&self, got: &mut RowAnswer, input: &[u8]) -> Option<()> {
        let (mode, rest) = line_of(input)?;
        let (prelude, text) = line_of(rest)?;
        let read = read_program(got.alloc, text, prelude, mode_of(mode)?);
        put_read(got, self.0, read)
    }
}

fn put_read(got: &mut RowAnswer, told: Told, read: Result<Whole, Stop>) -> Option<()> {
    match read {
        Ok(whole) => {
            let answered = put_whole(got, told, &whole);
            drop(whole);
            answered
        }
        Err(stop) => {
            got.put_stop(stop);
            Some(())
        }
    }
}

fn put_whole(got: &mut RowAnswer, told: Told, whole: &Whole) -> Option<()> {
    let rows = whole.program.rows();
    match told {
        Told::Taken => got.put("taken"),
        Told::Counts => put_counts(got, rows),
        Told::Wholeness => put_wholeness(got, rows)?,
        Told::Program => put_program(got, &whole.names, rows)?,
        Told::Definitions => {
            put_program(got, &whole.names, rows)?;
            put_definitions(got, &whole.names, rows)?;
        }
        Told::Sites => put_sites(got, rows),
    }
    Some(())
}

fn put_counts(got: &mut RowAnswer, rows: &ProgramRows) {
    got.put("taken");
    got.push(rows.main.len());
    got.push(rows.functions.len());
    got.push(rows.literals.len());
}

fn put_wholeness(got: &mut RowAnswer, rows: &ProgramRows) -> Option<()> {
    let is_whole = got.kept(is_whole(got.alloc, rows))?;
    got.put(if is_whole { "whole" } else { "not whole" });
    Some(())
}

fn put_sites(got: &mut RowAnswer, rows: &ProgramRows) {
    for place in rows.sites.as_slice() {
        got.begin();
        got.put_place(*place);
    }
}

// The mode of that name.
fn mode_of(name: &[u8]) -> Option<Mode> {
    if name == b"run".as_slice() {
        Some(Mode::Run)
    } else if name == b"show".as_slice() {
        Some(Mode::Show)
    } else {
        None
    }
}

// The first line, and what stands behind it.
fn line_of(text: &[u8]) -> Option<(&[u8], &[u8])> {
    let end = text.iter().position(|byte| *byte == b'\n')?;
    let (line, rest) = text.split_at_checked(end)?;
    let (_, behind) = rest.split_first()?;
    Some((line, behind))
}
