// The code of a whole program: all its procedures, in the order of their numbers.
#![tactic(auto)]

pub mod functions;
pub mod primitives;
pub mod program;
pub mod routines;

pub use program::lower_program;
