// The rows of definitions of variables, functions, generic functions and methods.
#![tactic(auto)]

pub mod defining;
pub mod generics;
pub mod methods;
