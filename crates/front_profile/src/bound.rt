// What names are bound to around a form.

use base::{FreshList, ItemList, Symbol};
use lang_meaning::{ExitVar, Var};

/// What a name is bound to: each kind has a namespace of its own.
#[derive(Drop)]
pub enum Bound {
    /// A variable (ISO/IEC 13816:2007, 14.2).
    Variable(Symbol, Var),
    /// A local function: the value of that variable (ISO/IEC 13816:2007, 12.7).
    Function(Symbol, Var),
    /// A block, with its exit (ISO/IEC 13816:2007, 14.8.1).
    Block(Symbol, ExitVar),
    /// The tags of a `tagbody`, in their order, with its exit.
    Tags(FreshList, ExitVar),
}

/// What is bound, the innermost last.
pub type BoundList = ItemList<Bound>;

/// An exit, and the segment behind a tag of it.
#[derive(Clone, Copy, Debug, PartialEq, Eq)]
pub struct Target {
    pub exit: ExitVar,
    pub segment: usize,
}
