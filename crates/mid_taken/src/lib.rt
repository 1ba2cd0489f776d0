// A value in the words of the machine's memory becomes a datum again.
#![tactic(auto)]

pub mod datum;
mod memory;
mod parts;
mod strings;
mod taking;

pub use datum::{GREATEST_DEPTH, GREATEST_SIZE, take_datum};
