// What a warning says.

use base::{Name, Place};

/// What is wrong with a form: an evaluation that comes to it, and that its parts do not leave, signals a condition.
#[derive(Clone, Copy, Debug, PartialEq, Eq)]
pub enum Fault {
    /// It calls a name that has no function (`<undefined-function>`, ISO/IEC 13816:2007, 29.4).
    NoFunction,
    /// It calls a function with `given` arguments that takes `required`, or with `more` as many and more (`<program-error>`).
    Arguments {
        given: usize,
        required: usize,
        more: bool,
    },
    /// It reads or sets a global variable that nothing defines (`<unbound-variable>`).
    NoVariable,
}

/// The form at a place, the name that it calls, reads or sets, and what is wrong with it.
#[derive(Clone, Copy, Debug, PartialEq, Eq)]
pub struct Warning {
    pub place: Place,
    pub name: Name,
    pub fault: Fault,
}
