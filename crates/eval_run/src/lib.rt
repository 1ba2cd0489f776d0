// Programs are evaluated: what they want is read, what they print is written, and how they end is told.
#![tactic(auto)]

pub mod answer;
mod end;
pub mod evaluating;
mod feeding;
mod running;
mod setting_up;
pub mod stop;
mod writing;

pub use answer::Counted;
pub use evaluating::{evaluate, evaluate_counted};
