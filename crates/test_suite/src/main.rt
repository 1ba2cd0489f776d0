// Puts each case of the tables to the main call, and says which of them it answers otherwise.
#![tactic(auto)]

mod answer;
mod case;
mod given;
mod table;
mod text;

use std::process::ExitCode;
use std::{fs, io};
use table::put_all;

// The tables: the command and its actions, warnings, what is told of conditions, macros, the library, and the examples of
// its manual.
const TABLES: [&str; 6] = [
    "cases.txt",
    "warnings.txt",
    "told.txt",
    "macros.txt",
    "library.txt",
    "book.txt",
];

fn main(rt: HostRuntime) -> io::Result<ExitCode> {
    let mut are_right = true;
    for name in TABLES {
        let table = fs::read_to_string(&rt, name)?;
        let is_right = put_all(&rt, table.as_str())?;
        are_right = are_right && is_right;
    }
    if are_right {
        Ok(ExitCode::SUCCESS)
    } else {
        Ok(ExitCode::FAILURE)
    }
}
