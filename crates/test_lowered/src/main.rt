// Runs compiled programs beside the evaluator: for each row of a table, whether the image of a program does what the program means. With
// an argument, the units of the meaning and the instructions that the image took are told too.
#![tactic(auto)]

mod building;
mod ends;
mod rows;
mod running;

use rows::{Programs, Telling};
use std::{env, io};
use test_rows::put_table;

fn main(rt: HostRuntime) -> io::Result<()> {
    let telling = if env::args(&rt)?.count() > 1 {
        Telling::Counts
    } else {
        Telling::Ends
    };
    put_table(
        &rt,
        "programs.txt",
        &Programs {
            files: &rt,
            telling,
        },
    )
}
