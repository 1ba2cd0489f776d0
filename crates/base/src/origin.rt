// Where a text comes from.

/// The origin of a text: the prelude, whose places are all 0:0, or a file, whose first byte has the
/// place 1:1.
#[derive(Clone, Copy, Debug, PartialEq, Eq)]
pub enum Origin {
    Prelude,
    File,
}
