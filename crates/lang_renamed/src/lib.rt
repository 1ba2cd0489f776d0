// Laws of renaming: a program means the same, whatever its names are numbered by.
#![tactic(auto)]

pub mod laws;

pub use laws::{law_evaluations, law_meaning, law_renamed_runs, law_same_runs, law_tasks};
