// The rows of special forms and of calls: values, bindings, exits, functions.
#![tactic(auto)]

pub mod bindings;
mod bound;
pub mod calls;
pub mod exits;
mod inside;
pub mod values;
