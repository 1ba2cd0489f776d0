// Runs of images begin with the words before the first form of a program.
#![tactic(auto)]

pub mod laws;

pub use laws::{law_begins_with_data, law_starts_from_data};
