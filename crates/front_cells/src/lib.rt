// The cells of dispatch tables, counted from form to form.
#![tactic(auto)]

mod bounds;
mod copies;
pub mod count;
mod flags;
pub mod generic_count;
mod groups;
mod steps;

pub use count::{CellCount, Recount};
