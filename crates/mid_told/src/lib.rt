// What is told of a condition that stands in the words of the machine's memory.
#![tactic(auto)]

mod classes;
mod memory;
mod parts;
mod strings;
pub mod telling;
mod writing;

pub use telling::tell_condition;
