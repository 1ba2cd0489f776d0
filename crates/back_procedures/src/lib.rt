// The code of whole procedures: entries and bodies of functions, main forms and the start.
#![tactic(auto)]

pub mod bodies;
pub mod entries;
pub mod extra;
pub mod frames;
pub mod mains;
mod mentions;
pub mod named;

pub use extra::Extra;
