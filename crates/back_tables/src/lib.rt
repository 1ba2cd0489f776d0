// Tables that the code of calls looks up, made of a program once.
#![tactic(auto)]

mod asking;
mod bodies;
mod methods;
pub mod sites;
mod tables;

pub use tables::tables_of;
