// Signals: the routines that make conditions and signal them.
#![tactic(auto)]

pub mod laws;
