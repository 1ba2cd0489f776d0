// Values, objects and primitives of the language in the words of the arena.
#![tactic(auto)]

pub mod class_words;
pub mod classes;
pub mod code;
pub mod laws;
pub mod line;
pub mod loops;
pub mod numbers;
pub mod signals;
pub mod slot_words;
pub mod steps;
pub mod strings;
pub mod symbols;
pub mod tests;
pub mod truths;
pub mod values;
pub mod vectors;
pub mod words;
pub mod writing;

pub use line::Line;
pub use writing::primitive;
