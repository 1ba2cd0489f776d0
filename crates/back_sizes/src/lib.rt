// How many words an image has, by what its code costs.
#![tactic(auto)]

pub mod laws;

pub use laws::{law_placed_size, law_sizes};
