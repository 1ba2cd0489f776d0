// The plain evaluator: a machine with a stack of its own that runs flat programs.
#![tactic(auto)]

pub mod laws;
pub mod run_laws;
