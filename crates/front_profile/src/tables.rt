// What the forms judged so far gave.

use crate::mark::Mark;
use base::{FreshList, ItemList, Name, NameList, PlaceList};
use lang_classes::Classes;
use lang_dispatch::Generics;
use lang_meaning::{CoreList, ExitVar, FunctionRows, LiteralRows, ProcedureId, ProcedureList, Var};

/// The names that no variable has: `t`, and the two words in front of a rest variable.
#[derive(Clone, Copy, Debug, PartialEq, Eq)]
pub struct ReservedWords {
    pub truth: Name,
    pub rest: Name,
    pub and_rest: Name,
}

/// A global variable that was defined, whether it is a constant, and whether a file or a prelude defined it
/// (ISO/IEC 13816:2007, 12.8).
#[derive(Clone, Copy, Debug, PartialEq, Eq)]
pub struct GlobalRow {
    pub name: Name,
    pub constant: bool,
    pub of_file: bool,
}

/// A dynamic variable that was defined, and whether a file or a prelude defined it (ISO/IEC 13816:2007, 14.3).
#[derive(Clone, Copy, Debug, PartialEq, Eq)]
pub struct DynamicRow {
    pub name: Name,
    pub of_file: bool,
}

/// A macro that was defined, and the procedure that expands its calls (ISO/IEC 13816:2007, 16).
#[derive(Clone, Copy, Debug, PartialEq, Eq)]
pub struct MacroRow {
    pub name: Name,
    pub procedure: ProcedureId,
}

/// What the forms judged so far gave: rows of a program, names that were defined or set, the new
/// symbols of steps, the numbers of the next variable and the next exit, and how many calls of macros
/// were expanded.
#[derive(Drop)]
pub struct Tables {
    pub words: ReservedWords,
    pub literals: LiteralRows,
    pub procedures: ProcedureList,
    pub functions: FunctionRows,
    pub macros: ItemList<MacroRow>,
    /// The functions and the macros that the prelude defined.
    pub prelude: NameList,
    pub classes: Classes,
    /// The classes that were there when the last definition of the prelude was met, the built-in ones among them.
    pub prelude_classes: usize,
    pub generics: Generics,
    pub globals: ItemList<GlobalRow>,
    /// The global variables that a form sets.
    pub set: NameList,
    pub dynamics: ItemList<DynamicRow>,
    pub sites: PlaceList,
    pub fresh: FreshList,
    pub variables: Var,
    pub exits: ExitVar,
    pub main: CoreList,
    pub expansions: u32,
    /// Where the tables stood when the top-level form that is judged began.
    pub before: Mark,
}
