// Which file is a program: the forms of a prelude and then of a file, judged one after another.
#![tactic(auto)]

mod forms;
pub mod laws;
pub mod mode;
pub mod program;
mod shown;

pub use mode::Mode;
pub use program::{Whole, read_program, read_program_with};
