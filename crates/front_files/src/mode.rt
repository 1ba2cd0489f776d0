// The two ways in which a file is taken.

/// How a file is taken: as it is, or with the value of its last form printed, unless that form is a
/// defining form or a `progn`.
#[derive(Clone, Copy)]
pub enum Mode {
    Run,
    Show,
}
