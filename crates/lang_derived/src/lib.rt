// Derived forms: one step of the table of derived forms.
#![tactic(auto)]

mod build;
pub mod laws;
pub mod one_step;
mod pattern;
mod piece;
mod quotation;
mod right;
mod setf;
pub mod shape;
mod table;
mod template;

pub use one_step::{Step, derive, is_derived_name};
pub use shape::{is_word, list_items};
