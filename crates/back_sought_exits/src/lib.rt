// Ways to exits that are sought by their number.
#![tactic(auto)]

pub mod laws;
