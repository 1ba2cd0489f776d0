// The evaluator of flat programs: the machine, with what stands beside it.
#![tactic(auto)]

pub mod advancing;
pub mod computing;
pub mod dynamics;
pub mod evaluator;
pub mod forms;
pub mod named;
pub mod next_step;
pub mod operations;
pub mod ports;
pub mod starting;
pub mod steps;
pub mod streams;
pub mod values;
