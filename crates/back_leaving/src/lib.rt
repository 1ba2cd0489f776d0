// How applications leave where all stands.
#![tactic(auto)]

pub mod laws;
