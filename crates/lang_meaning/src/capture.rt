// The parts of its dynamic context that a function captures.

ghost use Rattle.std.specs.Prelude.{◌≡◌};
ghost use Rattle.lang_meaning.specs.Mentions.{same_part};

use base::ItemList;

/// The number of a lexical variable.
pub type Var = usize;

/// The number of the exit of a `block` or `tagbody`.
pub type ExitVar = usize;

/// What a function mentions of what is around it: a variable, an exit, or the arguments and the
/// other methods of the method around, as one part.
#[derive(Clone, Copy)]
pub enum Capture {
    Variable(Var),
    Exit(ExitVar),
    Method,
}

/// Captured parts.
pub type CaptureList = ItemList<Capture>;

/// Whether both are the same part.
pub fn same_part(part: Capture, other: Capture) -> bool
    ensures { result ≡ same_part part other }
{
    match (part, other) {
        (Capture::Variable(v), Capture::Variable(w)) => v == w,
        (Capture::Exit(x), Capture::Exit(y)) => x == y,
        (Capture::Method, Capture::Method) => true,
        _ => false,
    }
}
