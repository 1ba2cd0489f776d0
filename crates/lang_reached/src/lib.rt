// Programs without what their main forms do not reach.
#![tactic(auto)]

mod bodies;
mod forms;
mod given;
pub mod kept;
pub mod laws;
pub mod leaving;
pub mod reached;
mod search;

pub use kept::Kept;
pub use laws::{law_reached, law_whole};
pub use leaving::keep_reached;
