// Primitives in lowered code: their procedures, called where a form applies one.
#![tactic(auto)]

pub mod laws;
