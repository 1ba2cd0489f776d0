// The code of the routines that apply functions and run chains of methods.
#![tactic(auto)]

pub mod applications;
pub mod chains;
