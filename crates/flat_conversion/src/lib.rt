// Programs made flat: the code of closure conversion, which gives just what its definition says.
#![tactic(auto)]

mod binders;
mod forms;
mod marks;
mod places;
pub mod program;
mod progress;
mod shapes;
mod variables;

pub use program::{flat_rows, flatten};
