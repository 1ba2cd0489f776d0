// Where something stands in a text.

/// A place in a text: lines and columns start at 1, and a column counts bytes. The place 0:0 is
/// that of what no text of a file has.
#[derive(Clone, Copy, Debug, PartialEq, Eq)]
pub struct Place {
    pub line: u32,
    pub column: u32,
}
