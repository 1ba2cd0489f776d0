// The machine that compiled programs run on: words of RV32IM, in an arena of their own.
#![tactic(auto)]

pub mod ending;
pub mod image;
pub mod laws;
pub mod machine;
pub mod run;
mod turn;

pub use ending::{Ending, StepEnd, TooBig, TrapKind};
pub use image::Image;
pub use laws::{law_budget, law_split, law_step, law_words};
pub use machine::Machine;
