// The code of calls, of control records, of functions and of bindings, with the code of the forms inside given.
#![tactic(auto)]

pub mod bindings;
pub mod calls;
pub mod exits;
pub mod functions;
pub mod given;
pub mod methods;
pub mod records;
pub mod variables;

pub use given::{FlagList, Given, RowList, Tables};
