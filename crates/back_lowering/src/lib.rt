// The lowering of flat programs to middle code, as a definition, and the plain types that it speaks of.
#![tactic(auto)]

pub mod placement;
pub mod scope;

pub use placement::Placement;
pub use scope::{ExitList, OwnExit, Reach, Scope, SitePlace};
