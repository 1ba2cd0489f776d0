// The code of the routines that transfer and signal, and of small ones: levels, lists of arguments, bindings and classes.
#![tactic(auto)]

pub mod lists;
pub mod signals;
pub mod transfers;
