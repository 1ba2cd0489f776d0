// Captured parts side by side.

ghost use Rattle.std.specs.Prelude.{◌≡◌};
ghost use Rattle.std.specs.List.{list_any};
ghost use Rattle.lang_meaning.specs.Mentions.{same_part, comes_before};

use lang_meaning::{Capture, same_part};

/// Whether it comes before the other: variables by rising number, then exits by rising number, then
/// the method.
pub fn comes_before(part: Capture, other: Capture) -> bool
    ensures { result ≡ comes_before part other }
{
    match (part, other) {
        (Capture::Variable(v), Capture::Variable(w)) => v < w,
        (Capture::Exit(x), Capture::Exit(y)) => x < y,
        (Capture::Variable(_), Capture::Exit(_) | Capture::Method) => true,
        (Capture::Exit(_), Capture::Method) => true,
        (Capture::Exit(_), Capture::Variable(_)) | (Capture::Method, _) => false,
    }
}

// Whether the part is among these.
pub fn has_part(part: Capture, parts: &[Capture]) -> bool
    ensures { result ≡ list_any (same_part part) parts.now }
{
    for p in parts {
        if same_part(part, *p) {
            return true;
        }
    }
    false
}
