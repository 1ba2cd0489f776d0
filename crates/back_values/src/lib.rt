// Variables, their boxes, and bindings of `let`.
#![tactic(auto)]

pub mod laws;
