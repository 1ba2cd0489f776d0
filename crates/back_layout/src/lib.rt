// The layout of an image: how long the code of each line is, where all stands, which jumps are near, and the words.
#![tactic(auto)]

pub mod laws;

pub use laws::{law_laid_out, law_layout, law_placed_laid_out, law_positions, law_words};
