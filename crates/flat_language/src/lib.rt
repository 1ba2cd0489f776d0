// Closure conversion: programs whose functions stand side by side, with what they capture listed.
#![tactic(auto)]

pub mod flat_core;
pub mod laws;
pub mod place;
pub mod program;

pub use flat_core::{
    FlatBinding, FlatBindingList, FlatCaptureList, FlatClause, FlatClauseList, FlatCore,
    FlatCoreForm, FlatCoreList, FlatDynBinding, FlatDynBindings,
};
pub use place::{CapturedKind, ExitPlace, FlatCapture, Home, Known, MethodPlace, VariablePlace};
pub use program::{CapturedKinds, FlatProcedure, FlatProcedureList, FlatProgram, HomeList};
