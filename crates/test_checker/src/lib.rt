// Whether rows are those of a program.
#![tactic(auto)]

mod bodies;
mod classes;
mod fits;
mod generics;
mod parts;
mod procedures;
mod rows;
mod scope;
mod stands;
pub mod whole;

pub use whole::is_whole;
