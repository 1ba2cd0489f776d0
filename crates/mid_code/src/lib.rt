// Middle code: operations over virtual registers and the words of an arena, what they mean, and when they are in form.
#![tactic(auto)]

pub mod check;
pub mod code;
pub mod laws;
pub mod operation;
pub mod program;
pub mod worked;

pub use code::{CaseList, Code, CodeStep, StepKind, SwitchCase};
pub use laws::{law_arenas, law_blocks, law_costs, law_levels, law_printing, law_words};
pub use operation::{
    Arithmetic, Callee, Comparison, Counted, Operation, Register, RegisterList, Test,
};
pub use program::{MidProcedure, MidProgram, ProcedureList};
pub use worked::{
    worked_calls, worked_cuts, worked_lent, worked_operations, worked_switches, worked_words,
};
