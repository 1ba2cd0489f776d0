// What a program leaves in its store, and what it leaves there when it is made flat.
#![tactic(auto)]

pub mod laws;

pub use laws::law_stores;
