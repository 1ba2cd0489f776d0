// Values and generic functions that are applied to words.
#![tactic(auto)]

pub mod laws;
