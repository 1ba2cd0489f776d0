// Calls of macros: what expands them, and the program of a call.
#![tactic(auto)]

pub mod expanding;
mod program;

pub use expanding::{Expanding, MacroCall, NoExpander, refused};
