// How many words the image of a program has, by its nodes.
#![tactic(auto)]

pub mod laws;

pub use laws::{law_further_sizes, law_image_sizes, law_program_image_sizes, law_use_sizes};
