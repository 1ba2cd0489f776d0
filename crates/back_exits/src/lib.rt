// Exits of the same activation: what control records do, and the forms that have them.
#![tactic(auto)]

pub mod laws;
