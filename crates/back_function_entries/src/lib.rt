// The entries of functions: their arguments are loaded, and their bodies called.
#![tactic(auto)]

pub mod laws;
