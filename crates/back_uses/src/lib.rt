// The names that the forms of a program use.
#![tactic(auto)]

mod forms;
mod functions;
mod naming;
mod program;
mod table;
mod used;

pub use program::used_names;
pub use table::are_in_table;
pub use used::UsedNames;
