// What is bound around a form, as contracts speak of it.

use crate::capture::ExitVar;
use crate::program::VarList;
use base::ItemList;

/// The form that makes an exit: a `block`, or a `tagbody` with so many segments.
#[derive(Clone, Copy)]
pub enum ExitForm {
    Block,
    Tagbody(usize),
}

/// The name of an exit, and the form that makes it.
#[derive(Clone, Copy)]
pub struct NamedExit {
    pub exit: ExitVar,
    pub around: ExitForm,
}

/// Exits, the innermost one first.
pub type NamedExits = ItemList<NamedExit>;

/// What is bound around a form: variables, exits, and whether it is inside a method that may have
/// a next one.
#[derive(Drop)]
pub struct LexicalScope {
    pub variables: VarList,
    pub exits: NamedExits,
    pub in_method: bool,
}
