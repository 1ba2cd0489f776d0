//! The library of the language, in ISLISP.
#![tactic(auto)]

pub mod text;

pub use text::PRELUDE;
