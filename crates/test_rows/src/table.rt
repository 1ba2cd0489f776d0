// The one way in which a table is gone through: row after row.

use crate::answer::RowAnswer;
use crate::escape::unescape;
use base::Bytes;
use std::rt::Files;
use std::{fs, io};

/// A table, as what the inputs of its rows are put to.
pub trait Table {
    /// Puts an input to the calls, and appends what they answer; none for an input that is none of
    /// this table's, or where memory was wanting.
    fn answer_row(&self, got: &mut RowAnswer, input: &[u8]) -> Option<()>;
}

/// Prints the name of the table's file and, for each row `INPUT => EXPECTED` of the file, the row
/// `INPUT => GOT`. An empty line, and a line that begins with `#`, is no row. An input that is none
/// of the table's answers `bad row`.
pub fn put_table<R: Files + Print + AllocGlobal, T: Table>(
    rt: &R,
    name: &str,
    table: &T,
) -> io::Result<()> {
    let text = fs::read_to_string(rt, name)?;
    let printed = put_rows(rt, name, table, text.as_str());
    drop(text);
    printed
}

// Prints the name of a table, and each row of its text.
fn put_rows<R: Print + AllocGlobal, T: Table>(
    rt: &R,
    name: &str,
    table: &T,
    text: &str,
) -> io::Result<()> {
    println!(rt; "== {name}")?;
    for line in text.lines() {
        if !line.is_empty() && !line.starts_with('#') {
            put_row(rt, table, line)?;
        }
    }
    Ok(())
}

// Puts the input of a row and prints it with its answer.
fn put_row<R: Print + AllocGlobal, T: Table>(rt: &R, table: &T, line: &str) -> io::Result<()> {
    let (input, _) = line.split_once(" => ").unwrap_or((line, ""));
    let mut got = RowAnswer::new(rt.alloc());
    let is_answered = put_escaped(table, &mut got, input).is_some();
    let printed = println!(rt; "{input} => {}", got.told(is_answered));
    drop(got);
    printed
}

// Puts an input whose escapes are still to be resolved.
fn put_escaped<T: Table>(table: &T, got: &mut RowAnswer, input: &str) -> Option<()> {
    let mut bytes = Bytes::new(got.alloc);
    let answered = match unescape(got, &mut bytes, input) {
        Some(()) => table.answer_row(got, bytes.as_slice()),
        None => None,
    };
    drop(bytes);
    answered
}
