// Kinds of forms by the forms inside them, where core forms and flat forms have the same.

/// A kind of form with two forms inside, one after another.
#[derive(Clone, Copy)]
pub enum OverTwo {
    Apply,
    While,
    Catch,
    Throw,
    Unwind,
    WithHandler,
    Signal,
    Continue,
}
