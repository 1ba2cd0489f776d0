// The profile as definitions: which form stands for which core form, and which is refused and why; and its laws.
#![tactic(auto)]

pub mod bound;
pub mod elaboration;
pub mod laws;
pub mod mark;
pub mod parameters;
pub mod special;
pub mod spot;
pub mod tables;
pub mod whole_laws;

pub use bound::{Bound, BoundList, Target};
pub use elaboration::{
    Accessor, BodyLengths, DefinedAs, ElaboratedPart, ElaboratedParts, Elaboration, Leaf, Lengths,
    Made, MethodHead, MethodHeads, NewClass, One, SlotFunction, SlotFunctions, Taker,
};
pub use mark::Mark;
pub use parameters::Parameters;
pub use special::{Special, is_special_name, special_named};
pub use spot::Spot;
pub use tables::{DynamicRow, GlobalRow, MacroRow, ReservedWords, Tables};
