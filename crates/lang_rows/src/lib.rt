// Rows of programs: copied, marked by numbers, and found by names.
#![tactic(auto)]

pub mod copies;
pub mod flags;
pub mod named;
