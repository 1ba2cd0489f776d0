// Programs: what a file comes to.

use crate::capture::Var;
use crate::core_form::{Core, CoreList};
use base::{Datum, ItemList, Name, NameList, PlaceList};

/// The number of a literal row, from 0.
pub type LiteralId = usize;

/// The number of a procedure, from 0.
pub type ProcedureId = usize;

/// The number of a class, from 0; the built-in classes come first.
pub type ClassId = usize;

/// The number of a generic function, from 0.
pub type GenericId = usize;

/// The number of a site, from 1.
pub type SiteId = usize;

/// A literal: what a datum stands for, a class, or the function of a name.
#[derive(Drop)]
pub enum LiteralRow {
    Datum(Datum),
    Class(ClassId),
    Function(Name),
}

/// Literal rows.
pub type LiteralRows = ItemList<LiteralRow>;

/// Variables.
pub type VarList = ItemList<Var>;

/// Classes, by their numbers.
pub type ClassIds = ItemList<ClassId>;

/// A procedure: its name, its variables, and its body. A rest variable takes the arguments behind
/// the required ones.
#[derive(Drop)]
pub struct Procedure {
    pub name: Option<Name>,
    pub required: VarList,
    pub rest: Option<Var>,
    pub body: Core,
}

/// Procedures.
pub type ProcedureList = ItemList<Procedure>;

/// A slot: its name, the names that give it a value when an instance is made, and the procedure
/// that does so otherwise.
#[derive(Drop)]
pub struct SlotRow {
    pub name: Name,
    pub initargs: NameList,
    pub initform: Option<ProcedureId>,
}

/// Slots, in the order of their places.
pub type SlotRows = ItemList<SlotRow>;

/// A class: its name, its precedence list with itself in front, and its slots.
#[derive(Drop)]
pub struct ClassRow {
    pub name: Name,
    pub precedence: ClassIds,
    pub slots: SlotRows,
    pub abstract_class: bool,
}

/// Classes.
pub type ClassRows = ItemList<ClassRow>;

/// When a method runs (ISO/IEC 13816:2007, 15.3).
#[derive(Clone, Copy)]
pub enum Qualifier {
    Primary,
    Around,
    Before,
    After,
}

/// A method: one class for each required argument of its generic function.
#[derive(Drop)]
pub struct MethodRow {
    pub qualifier: Qualifier,
    pub classes: ClassIds,
    pub procedure: ProcedureId,
}

/// Methods.
pub type MethodRows = ItemList<MethodRow>;

/// A generic function: its name, the number of its required arguments, whether it takes more, and
/// its methods.
#[derive(Drop)]
pub struct GenericRow {
    pub name: Name,
    pub required: u32,
    pub rest: bool,
    pub methods: MethodRows,
}

/// Generic functions.
pub type GenericRows = ItemList<GenericRow>;

/// What a name calls.
#[derive(Clone, Copy)]
pub enum Callee {
    Procedure(ProcedureId),
    Generic(GenericId),
}

/// The function of a name.
#[derive(Clone, Copy)]
pub struct FunctionRow {
    pub name: Name,
    pub callee: Callee,
}

/// Functions.
pub type FunctionRows = ItemList<FunctionRow>;

/// A program: its literals, procedures, classes, generic functions and functions, its main forms in
/// order, and the places of its sites.
#[derive(Drop)]
pub struct ProgramRows {
    pub literals: LiteralRows,
    pub procedures: ProcedureList,
    pub classes: ClassRows,
    pub generics: GenericRows,
    pub functions: FunctionRows,
    pub main: CoreList,
    pub sites: PlaceList,
}
