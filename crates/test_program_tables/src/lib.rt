// The rows of the tables of classes, generic functions and programs, put to the calls that they are of.
#![tactic(auto)]

mod classes;
mod inputs;
mod method;
mod methods;
mod programs;
mod slots;
mod tables;

pub use tables::ProgramTable;
