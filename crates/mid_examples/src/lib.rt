// Worked rows: what primitives come to, run in the meaning of middle code.
#![tactic(auto)]

pub mod worked;

pub use worked::{
    worked_bounds, worked_classes, worked_conses, worked_ground, worked_instances, worked_numbers,
    worked_predicates, worked_streams, worked_strings, worked_symbols, worked_vectors,
};
