// Applications: procedures are entered, functions applied, methods run, conditions signalled.
#![tactic(auto)]

pub mod arguments;
pub mod boxes;
pub mod calls;
pub mod classes;
pub mod entering;
pub mod functions;
pub mod generics;
pub mod lists;
pub mod making;
pub mod methods;
pub mod procedures;
pub mod signalling;
pub mod spreading;
pub mod values;
pub mod variables;
