// Where words are: what registers, slots and words of the image are decided for a program of lines, and what follows for its
// instructions.
#![tactic(auto)]

pub mod laws;
pub mod place;
pub mod worked;

pub use laws::law_trivial;
pub use place::{LinePlaces, Place, ProcedurePlaces, ProcedurePlacesList, Reading};
pub use worked::{worked_fib, worked_record};
