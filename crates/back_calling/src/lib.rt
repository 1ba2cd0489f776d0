// How routines are called by forms and by one another, and how procedures are entered.
#![tactic(auto)]

pub mod laws;
