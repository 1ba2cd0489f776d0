// Whole programs compiled to images, and what these do.
#![tactic(auto)]

mod boxes;
pub mod building;
mod captured;
mod data_below;
pub mod faults;
mod inside;
pub mod laws;
mod names_there;

pub use building::{Built, build};
pub use faults::BuildFault;
pub use laws::{
    law_built, law_built_size, law_compiled, law_left, law_values_left, law_whole_meaning,
    law_words_left,
};
