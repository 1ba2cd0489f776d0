// What opens a datum that has data inside: a list, a vector, or a prefix.

/// A prefix: it stands before a datum and makes the list of a symbol and that datum
/// (ISO/IEC 13816:2007, 6).
#[derive(Clone, Copy)]
pub enum Prefix {
    Quote,
    Quasiquote,
    Unquote,
    UnquoteSplicing,
    Function,
}

/// An opening: `(`, `#(` or a prefix.
#[derive(Clone, Copy)]
pub enum Opening {
    List,
    Vector,
    Before(Prefix),
}
