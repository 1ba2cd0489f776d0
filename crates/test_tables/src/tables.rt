// The tables: how the input of a row is read, and the calls that it is put to.

use crate::steps::Places;
use crate::{data, lists, names, outside, printed, reasons, serials, steps, texts};
use base::{Datum, Names, Origin};
use std::str;
use test_rows::{RowAnswer, Table, read_data};

/// How deep walks over the data of an input go at most, item by item.
pub const DEPTH: u32 = 2000;

/// A table, by what the inputs of its rows are.
pub enum Rows {
    /// Lines.
    Lines(Lines),
    /// Texts of that origin, of any bytes.
    Texts(Origin),
    /// Data.
    Data(Data),
}

/// A table of lines.
pub enum Lines {
    Reasons,
    Lists,
    Outside,
    Names,
}

/// A table of data.
pub enum Data {
    Data,
    Printed,
    Steps,
    Places,
    Serials,
}

impl Table for Rows {
    fn answer_row(&self, got: &mut RowAnswer, input: &[u8]) -> Option<()> {
        match self {
            Rows::Lines(lines) => lines.answer_row(got, str::from_utf8(input).ok()?),
            Rows::Texts(origin) => texts::answer_row(got, *origin, input),
            Rows::Data(data) => data.put_text(got, input),
        }
    }
}

impl Lines {
    fn answer_row(&self, got: &mut RowAnswer, line: &str) -> Option<()> {
        match self {
            Lines::Reasons => reasons::answer_row(got, line),
            Lines::Lists => lists::answer_row(got, line),
            Lines::Outside => outside::answer_row(got, line),
            Lines::Names => names::answer_row(got, line),
        }
    }
}

impl Data {
    fn put_text(&self, got: &mut RowAnswer, text: &[u8]) -> Option<()> {
        let mut names = Names::new(got.alloc);
        let answered = self.put_read(got, &mut names, text);
        drop(names);
        answered
    }

    fn put_read(&self, got: &mut RowAnswer, names: &mut Names, text: &[u8]) -> Option<()> {
        let read = read_data(got, names, text)?;
        let answered = self.answer_row(got, names, read.as_slice());
        drop(read);
        answered
    }

    fn answer_row(&self, got: &mut RowAnswer, names: &mut Names, data: &[Datum]) -> Option<()> {
        match self {
            Data::Data => data::answer_row(got, names, data),
            Data::Printed => printed::answer_row(got, names, data),
            Data::Steps => steps::answer_row(got, names, data, Places::Hidden),
            Data::Places => steps::answer_row(got, names, data, Places::Shown),
            Data::Serials => serials::answer_row(got, names, data),
        }
    }
}
