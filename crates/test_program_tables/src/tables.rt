// The tables, and the calls that their inputs are put to.

use crate::{classes, methods, programs};
use base::{Datum, Names};
use test_rows::{RowAnswer, Table, read_data};

/// A table, whose inputs are data.
pub enum ProgramTable {
    Classes,
    Methods,
    Programs,
}

impl Table for ProgramTable {
    fn answer_row(&self, got: &mut RowAnswer, input: &[u8]) -> Option<()> {
        let mut names = Names::new(got.alloc);
        let answered = self.put_text(got, &mut names, input);
        drop(names);
        answered
    }
}

impl ProgramTable {
    fn put_text(&self, got: &mut RowAnswer, names: &mut Names, text: &[u8]) -> Option<()> {
        let read = read_data(got, names, text)?;
        let answered = self.put_data(got, names, read.as_slice());
        drop(read);
        answered
    }

    fn put_data(&self, got: &mut RowAnswer, names: &mut Names, data: &[Datum]) -> Option<()> {
        match self {
            ProgramTable::Classes => classes::answer_row(got, names, data),
            ProgramTable::Methods => methods::answer_row(got, names, data),
            ProgramTable::Programs => programs::answer_row(got, names, data),
        }
    }
}
