// What a call answers.

ghost use Rattle.std.specs.Prelude.{◌≡◌, ◌↔◌, IsTrue};

use std::{fmt, str};

/// The exit status of a call, what it printed, and the line that it wrote to the error output.
#[derive(Drop)]
pub struct CallAnswer<'a> {
    pub status: u8,
    pub printed: &'a [u8],
    pub line: &'a [u8],
}

impl CallAnswer<'_> {
    /// Whether the other is the same.
    pub fn is(&self, other: &CallAnswer) -> bool
        ensures { IsTrue result ↔ ((self.now.status ≡ other.now.status)
            × (self.now.printed.now ≡ other.now.printed.now)
            × (self.now.line.now ≡ other.now.line.now)) }
    {
        self.status == other.status && self.printed == other.printed && self.line == other.line
    }
}

impl fmt::Display for CallAnswer<'_> {
    fn fmt<W: fmt::Write>(&self, f: &mut fmt::Formatter<W>) -> fmt::Result {
        let status = self.status;
        let printed = shown(self.printed);
        let line = shown(self.line);
        write!(f, "status {status}, printed {printed:?}, line {line:?}")
    }
}

// The bytes as text.
fn shown(bytes: &[u8]) -> &str {
    str::from_utf8(bytes).unwrap_or("bytes that are no text")
}
