// Variables that have a box are captured by the functions that are made in the body of their function.
#![tactic(auto)]

pub mod laws;

pub use laws::law_boxes_captured;
