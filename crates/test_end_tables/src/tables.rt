// The tables, and the calls that their inputs are put to.

use crate::{fields, runs, words};
use std::str;
use test_rows::{RowAnswer, Table};

/// A table, whose inputs are lines.
pub enum MachineTable {
    Words,
    Fields,
    Runs,
}

impl Table for MachineTable {
    fn answer_row(&self, got: &mut RowAnswer, input: &[u8]) -> Option<()> {
        let line = str::from_utf8(input).ok()?;
        match self {
            MachineTable::Words => words::answer_row(got, line),
            MachineTable::Fields => fields::answer_row(got, line),
            MachineTable::Runs => runs::answer_row(got, line),
        }
    }
}
