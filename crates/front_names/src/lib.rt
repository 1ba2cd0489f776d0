// Whether all names of a program are in a table of names.
#![tactic(auto)]

mod data;
mod forms;
mod rows;

pub use rows::are_names_below;
