// The core form that is made of what was found of its parts, and what counts once it is made.
#![tactic(auto)]

pub mod elaborate;
pub mod kept;
mod mentioned;
mod mentioning;

pub use elaborate::complete;
pub use kept::{Formed, FoundParts};
