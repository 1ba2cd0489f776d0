// The words of a whole lowered program, and that a setting with these words is placed.
#![tactic(auto)]

pub mod laws;
