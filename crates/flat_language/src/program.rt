// Flat programs: procedures, functions and main forms side by side.

use crate::flat_core::{FlatCore, FlatCoreList};
use crate::place::{CapturedKind, Home};
use base::{ItemList, PlaceList};
use lang_meaning::{ClassRows, FunctionRows, GenericRows, LiteralRows};

/// Where variables live.
pub type HomeList = ItemList<Home>;

/// Kinds of captured things.
pub type CapturedKinds = ItemList<CapturedKind>;

/// A flat procedure: what its function captures, where its required variables and its rest variable live, whether a function in it captures the
/// arguments and the other methods of its method, and its body.
#[derive(Drop)]
pub struct FlatProcedure {
    pub captured: CapturedKinds,
    pub required: HomeList,
    pub rest: Option<Home>,
    pub keeps_method: bool,
    pub body: FlatCore,
}

/// Flat procedures.
pub type FlatProcedureList = ItemList<FlatProcedure>;

/// A flat program. Its procedures are those of the program that it was made from, with their numbers; its functions are
/// those that forms made, each with a number above that of a function in which it stands.
#[derive(Drop)]
pub struct FlatProgram {
    pub literals: LiteralRows,
    pub procedures: FlatProcedureList,
    pub lambdas: FlatProcedureList,
    pub classes: ClassRows,
    pub generics: GenericRows,
    pub functions: FunctionRows,
    pub main: FlatCoreList,
    pub sites: PlaceList,
}
