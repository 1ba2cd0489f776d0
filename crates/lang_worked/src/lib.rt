// Worked programs: what some programs that are written out by hand do, by the definitions of the meaning, and the same made flat; and
// small files, from their bytes to what they do or to why they are refused.
#![tactic(auto)]

pub mod files;
pub mod flat_programs;
pub mod worked;

pub use flat_programs::{flat_calls, flat_conditions, flat_data, flat_exits, worked_flat};
pub use worked::{worked_calls, worked_conditions, worked_data, worked_exits, worked_programs};
