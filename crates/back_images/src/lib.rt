// The images of programs with their positions, and what they do.
#![tactic(auto)]

pub mod laws;
pub mod worked;

pub use laws::{law_emitted_runs, law_first_states, law_images};
