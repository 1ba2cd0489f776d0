// Core forms, programs, and what they mean.
#![tactic(auto)]

pub mod capture;
pub mod classes;
pub mod core_form;
pub mod evaluation;
pub mod kinds;
pub mod laws;
pub mod mentioned;
pub mod nodes;
pub mod primitive;
pub mod program;
pub mod scope;
mod whole;

pub use capture::{Capture, CaptureList, ExitVar, Var, same_part};
pub use classes::{BUILT_IN_CLASSES, BuiltInClass, built_in_class, class_text};
pub use core_form::{
    Binding, BindingList, Clause, ClauseList, Core, CoreForm, CoreList, DynBinding, DynBindings,
    SegmentList, Subforms,
};
pub use evaluation::EvaluationEnd;
pub use kinds::OverTwo;
pub use mentioned::{mentions, owns};
pub use nodes::{
    class_list_nodes, form_list_nodes, form_nodes, frame_words, literal_list_nodes,
    procedure_list_nodes, procedure_nodes, row_nodes,
};
pub use primitive::Primitive;
pub use program::{
    Callee, ClassId, ClassIds, ClassRow, ClassRows, FunctionRow, FunctionRows, GenericId,
    GenericRow, GenericRows, LiteralId, LiteralRow, LiteralRows, MethodRow, MethodRows, Procedure,
    ProcedureId, ProcedureList, ProgramRows, Qualifier, SiteId, SlotRow, SlotRows, VarList,
};
pub use scope::{ExitForm, LexicalScope, NamedExit, NamedExits};
pub use whole::Program;
