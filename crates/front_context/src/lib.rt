// What is bound around a form, each name found by a map.
#![tactic(auto)]

mod bindings;
mod spaces;

pub use bindings::Bindings;
