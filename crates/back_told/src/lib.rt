// What is told of the condition by which the run of an image ended.
#![tactic(auto)]

pub mod laws;

pub use laws::law_conditions_told;
