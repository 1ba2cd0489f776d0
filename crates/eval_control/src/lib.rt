// What forms, values and outcomes do with the machine of the plain evaluator.
#![tactic(auto)]

pub mod blocks;
pub mod bound;
pub mod dynamic_bodies;
pub mod exits;
pub mod forms;
pub mod functions;
pub mod jumps;
pub mod let_bodies;
pub mod lists;
pub mod literals;
pub mod locals;
pub mod main_forms;
pub mod next_methods;
pub mod outcomes;
pub mod own_exits;
pub mod passing;
pub mod remaining;
pub mod restoring;
pub mod sites;
pub mod transfers;
pub mod values;
