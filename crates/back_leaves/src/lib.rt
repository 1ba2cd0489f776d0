// The code of what forms do that has no recursion over forms: conditions, variables, primitives.
#![tactic(auto)]

pub mod applying;
pub mod boxes;
pub mod known;
pub mod leaves;
pub mod numbers;
pub mod primitives;
pub mod quick;
pub mod registers;
pub mod routine_steps;
pub mod steps;
pub mod words;
