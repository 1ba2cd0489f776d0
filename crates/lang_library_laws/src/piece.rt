// Bodies as rows of pieces.

use lang_meaning::Primitive;

/// A piece of a body: a form that is put on those in front of it, or that takes as its parts the last ones of them. Literals, variables
/// and names have numbers.
#[derive(Clone, Copy)]
pub enum Piece {
    /// The value of a literal.
    Literal(usize),
    /// The value of a variable.
    Local(usize),
    /// A variable is set to one form.
    SetLocal(usize),
    /// The function of this name, of so many arguments.
    Call(usize, usize),
    /// So many values, of which the first is a function that is called with the others.
    CallValue(usize),
    /// A function and the list of what it is called with.
    Apply,
    /// A primitive of so many arguments.
    Prim(Primitive, usize),
    /// So many forms in order.
    Sequence(usize),
    /// A test and a body.
    While,
    /// So many values, of the variables from this one on, and a body.
    Let(usize, usize),
    /// A clause of a test and a body, which is no form.
    Clause,
    /// A clause of a test alone.
    Test,
    /// So many clauses.
    Clauses(usize),
}
