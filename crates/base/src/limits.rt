// The limit of this profile by which texts are judged wherever they are read.

/// The bytes that the text of a file may have.
pub const LONGEST_TEXT: usize = 1_048_576;
