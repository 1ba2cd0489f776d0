// The line of a text that a place is in, and a caret under the place.

ghost use Rattle.std.specs.Prelude.{◌≡◌, ◌≤◌, ◌==◌, OnOk, OnErr, [], ◌∷◌, ◌++◌, map, take, slice_get, option_map, codes, ◌-◌};
ghost use Rattle.std.specs.List.{slice_split};
ghost use Rattle.base.specs.Outside.{Rose};
ghost use Rattle.base.specs.Given.{WasGiven};
ghost use Rattle.top_lines.specs.Excerpts.{blank as blank_of, excerpt, line_at as line_of_number, passed, shown as shown_of};

use base::{Failed, Place, Sink, write_all};

// As many bytes of a line are shown at most, and in front of the place.
const MOST_SHOWN: usize = 120;

const MOST_BEFORE: usize = 60;

/// Writes the line that a place is in, at most 120 bytes of it, and a caret under the place; nothing of the place 0:0.
pub(crate) fn write_excerpt<E: Sink>(err: &mut E, text: &[u8], place: Place) -> Result<(), Failed>
    ensures given { OnOk result (WasGiven (E.given err.old) (excerpt text.now place) (E.given err.new)) }
    ensures fault { OnErr result (Rose (E.faults err.old) (E.faults err.new)) }
    ensures count { E.faults err.old ≤ E.faults err.new }
{
    if place.line == 0 {
        return Ok(());
    }
    let column = place.column as usize;
    let part = shown(line_at(text, place.line as usize), column);
    write_all(err, part)?;
    write_all(err, b"\n")?;
    write_caret(err, before(part, column))
}

// The line of that number; empty where there is none.
fn line_at(text: &[u8], number: usize) -> &[u8]
    ensures { result.now ≡ line_of_number text.now number }
{
    match nth_line(text, number.saturating_sub(1)) {
        Some(line) => line,
        None => b"",
    }
}

// The line behind so many others, where there is one.
fn nth_line(text: &[u8], others: usize) -> Option<&[u8]>
    ensures { option_map (λ line. line.now) result ≡ slice_get (slice_split (λ b. b == 10) text.now) others }
{
    text.split(|byte| *byte == b'\n').nth(others)
}

// What is shown of a line.
fn shown(line: &[u8], column: usize) -> &[u8]
    ensures { result.now ≡ shown_of line.now column }
{
    let begin = column.saturating_sub(MOST_BEFORE + 1).min(line.len());
    front(&line[begin..], MOST_SHOWN)
}

// What stands of it in front of the column.
fn before(part: &[u8], column: usize) -> &[u8]
    ensures { result.now ≡ take (column - 1 - passed column) part.now }
{
    front(part, column.saturating_sub(1).min(MOST_BEFORE))
}

// So many bytes, or all.
fn front(bytes: &[u8], most: usize) -> &[u8]
    ensures { result.now ≡ take most bytes.now }
{
    &bytes[..most.min(bytes.len())]
}

// The caret behind blanks and tabs.
fn write_caret<E: Sink>(err: &mut E, front: &[u8]) -> Result<(), Failed>
    ensures given { OnOk result (WasGiven (E.given err.old) (map blank_of front.now ++ codes "^\n") (E.given err.new)) }
    ensures fault { OnErr result (Rose (E.faults err.old) (E.faults err.new)) }
    ensures count { E.faults err.old ≤ E.faults err.new }
{
    write_blanks(err, front)?;
    write_all(err, b"^\n")
}

// Blanks for bytes, and tabs for tabs.
fn write_blanks<E: Sink>(err: &mut E, front: &[u8]) -> Result<(), Failed>
    ensures given { OnOk result (WasGiven (E.given err.old) (map blank_of front.now) (E.given err.new)) }
    ensures fault { OnErr result (Rose (E.faults err.old) (E.faults err.new)) }
    ensures count { E.faults err.old ≤ E.faults err.new }
{
    for byte in front {
        write_all(err, blank(*byte))?;
    }
    Ok(())
}

// What stands for a byte in front of the caret.
fn blank(byte: u8) -> &'static [u8]
    ensures { result.now ≡ blank_of byte ∷ [] }
{
    if byte == b'\t' { b"\t" } else { b" " }
}
