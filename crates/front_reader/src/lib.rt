// The reader: ISLISP text to data, with every text fault at its place.
#![tactic(auto)]

mod chain;
mod characters;
mod cursor;
mod gap;
pub mod laws;
mod lexeme;
pub mod opening;
mod pending;
pub mod print;
mod quoted;
pub mod reader;
mod sharp;
mod step;
mod token;
mod turn;

pub use opening::{Opening, Prefix};
pub use print::print_datum;
pub use reader::Reader;
