// How many nodes flat programs have.
#![tactic(auto)]

pub mod laws;

pub use laws::law_flat_program_nodes;
