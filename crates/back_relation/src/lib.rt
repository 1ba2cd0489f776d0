// What ties lowered code to the meaning of flat programs, and what is to be shown of each part of it, as definitions.
#![tactic(auto)]

pub mod laws;
