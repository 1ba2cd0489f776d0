// A whole flat program lowered: its procedures, and the words that are there before its first form.
#![tactic(auto)]

pub mod faults;
pub mod literals;
pub mod lowering;
pub mod objects;
pub mod program;
pub mod symbols;
pub mod variables;

pub use faults::LoweringFault;
pub use lowering::{LoweredProgram, lower};
pub use program::{LaidProgram, lay_program};
