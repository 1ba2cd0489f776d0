// Puts the rows of a table of programs of middle code to `emit`, and runs their images on the machine.
#![tactic(auto)]

mod building;
mod numbers;
mod operations;
mod running;

use std::{io, str};
use test_rows::{RowAnswer, Table, put_table};

// Programs of middle code, as rows write them.
struct Programs;

impl Table for Programs {
    fn answer_row(&self, got: &mut RowAnswer, input: &[u8]) -> Option<()> {
        running::answer_row(got, str::from_utf8(input).ok()?)
    }
}

fn main(rt: HostRuntime) -> io::Result<()> {
    put_table(&rt, "programs.txt", &Programs)
}
