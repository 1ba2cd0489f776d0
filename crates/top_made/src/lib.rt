// The text that `make` runs, by its number.
#![tactic(auto)]

pub mod making;

pub use making::generate;
