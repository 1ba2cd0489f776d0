// What is written in a form: shapes, names, methods, classes, and the names that a definition asks for.
#![tactic(auto)]

pub mod methods;
pub mod naming;
pub mod primitives;
pub mod setters;
pub mod shapes;
pub mod slots;
pub mod words;
