// What expands calls of macros: the expander of each is compiled and run on the machine.
#![tactic(auto)]

mod compiling;
mod expander;
mod expander_run;
mod output;

pub use expander::Expander;
