// The row of the definition of a class.
#![tactic(auto)]

pub mod classes;
mod functions;
mod slots;
mod supers;
