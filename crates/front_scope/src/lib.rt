// Judging top-level forms: the profile's verdict on each, with what it gives.
#![tactic(auto)]

mod below;
mod calls;
mod cells;
mod counts;
mod first;
mod functions;
mod judge;
mod keep;
mod mark;
mod quick;
pub mod scope;

pub use scope::Scope;
