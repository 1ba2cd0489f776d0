// No more exits are made than units are charged.
#![tactic(auto)]

pub mod laws;

pub use laws::{law_exits_of_forms, law_exits_of_runs};
