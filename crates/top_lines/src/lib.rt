// The statuses that a call ends with, and the lines that tell of them.
#![tactic(auto)]

mod excerpts;
pub mod lines;
mod sentences;
pub mod status;
mod warnings;

pub use lines::{end_with, write_counts};
pub use status::{CommandAnswer, Status, WarningLine, WarningLines};
