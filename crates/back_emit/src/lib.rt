// Instructions appended to a list of them, piece by piece as the definitions of code say.
#![tactic(auto)]

pub mod blocks;
pub mod code_of_lines;
pub mod errors;
pub mod finding;
pub mod in_order;
pub mod laws;
pub mod lines;
pub mod nearness;
pub mod operands;
pub mod operations;
pub mod passing;
pub mod placing;
pub mod registers;
pub mod selection;
pub mod sizes;
pub mod spots;
pub mod walking;
pub mod ways;

pub use errors::EmitError;
pub use operands::CodeList;
pub use spots::Spot;
pub use ways::{Access, FrameWay};
