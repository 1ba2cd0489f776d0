// The words of the command line, and what they ask for.
#![tactic(auto)]

pub mod command;
mod command_line;
mod numbers;
pub mod wrong;

pub use command::{Action, Command, asked};
pub use wrong::wrong_word;
