// Every form and every routine at every level: the induction over what is shown of each.
#![tactic(auto)]

pub mod laws;
