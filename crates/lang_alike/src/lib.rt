// Values stand for the same data in stores that are the same but for functions.
#![tactic(auto)]

pub mod laws;

pub use laws::law_alike_data;
