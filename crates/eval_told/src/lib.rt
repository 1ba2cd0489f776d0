// What is told of a condition that no handler took, by the store of the run.
#![tactic(auto)]

mod names;
mod parts;
pub mod telling;
mod writing;

pub use telling::tell_condition;
