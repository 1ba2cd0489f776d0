// What a program is warned of: calls that find no function, or one that takes other arguments, and global variables that
// nothing defines.
#![tactic(auto)]

mod collected;
mod defined;
mod faults;
mod known;
pub mod warning;
mod warnings;

pub use warning::{Fault, Warning};
pub use warnings::warnings_of;
