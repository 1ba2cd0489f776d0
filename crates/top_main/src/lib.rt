// The actions of the program: text in, statuses and bytes out.
#![tactic(auto)]

mod build;
mod check;
mod ended;
mod image_run;
pub mod kept;
pub mod laws;
pub mod main_call;
mod make;
mod mode;
mod name;
mod plain;
mod reading;
mod run;
mod writing;

pub use kept::Kept;
pub use laws::law_agree;
pub use main_call::isl_main;
pub use top_lines::{CommandAnswer, Status, lines};
