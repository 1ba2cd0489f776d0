// Calls of macros have one expansion under a table of names.
#![tactic(auto)]

pub mod laws;

pub use laws::law_one_expansion;
