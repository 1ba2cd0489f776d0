// What functions of the library do, by the definitions of the meaning, whatever the program around them.
#![tactic(auto)]

mod bodies;
pub mod laws;
mod piece;
mod program;

pub use piece::Piece;
pub use program::{
    DIGITS, FUNCTIONS, LawFunction, LawLiteral, LawProcedure, literals, names, procedure,
};
