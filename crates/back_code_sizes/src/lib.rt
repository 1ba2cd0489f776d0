// How large the code of a flat program is, by its nodes.
#![tactic(auto)]

pub mod laws;

pub use laws::{law_code_sizes, law_form_sizes};
