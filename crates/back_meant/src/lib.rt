// Images of lowered programs, in words of the meaning.
#![tactic(auto)]

pub mod laws;

pub use laws::law_meant_runs;
