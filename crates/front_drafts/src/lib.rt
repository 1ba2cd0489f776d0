// Drafts and plans: what a row makes of a form where it stands, and what the tables take of it.
#![tactic(auto)]

pub mod draft;
pub mod here;
pub mod plan;
pub mod take;
pub mod taken;

pub use here::{Here, deeper};
pub use plan::{Inner, Part, Parts, Plan, Work, Written};
