// What is told of a condition that no handler took.
#![tactic(auto)]

pub mod laws;
pub mod spelling;

pub use laws::{law_alike_tellings, law_one_telling};
pub use spelling::{append_character, append_fresh, append_integer, append_name, append_string};
