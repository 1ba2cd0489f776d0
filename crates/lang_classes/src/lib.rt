// Classes of a program: their precedence lists and their slots.
#![tactic(auto)]

mod builtin;
mod classes;
mod definition;
mod judged;
pub mod laws;
mod line;
mod numbers;
mod place;
mod row;
mod slot_spec;
mod slots;
mod table;

pub use classes::Classes;
pub use slot_spec::{SlotSpec, SlotSpecs};
