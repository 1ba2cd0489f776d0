// A cursor: what is left of a text, and the place of its first byte.

ghost use Rattle.std.specs.Prelude.{◌≡◌, ◌≤◌, ◌+◌, ◌<◌, ◌^◌, length, take, drop};
ghost use Rattle.front_reader.specs.Characters.{place_after, place_behind as place_behind_of};
ghost use Rattle.front_reader.specs.Readers.{PlacesFit};

use base::Place;

// The place behind a byte; 0:0 stays.
#[tactic(auto, unfolding(crate::specs::Characters::place_after))]
fn place_behind_byte(place: Place, byte: u8) -> Place
    requires line { 0 < place.line → place.line + 1 < 2 ^ 32 }
    requires column { 0 < place.line → place.column + 1 < 2 ^ 32 }
    ensures after { result ≡ place_after place byte }
    ensures line { result.line ≤ place.line + 1 }
    ensures column { result.column ≤ place.column + 1 }
    ensures none { place.line ≡ 0 → result.line ≡ 0 }
{
    if place.line == 0 {
        place
    } else if byte == b'\n' {
        Place {
            line: place.line + 1,
            column: 1,
        }
    } else {
        Place {
            line: place.line,
            column: place.column + 1,
        }
    }
}

/// The place behind bytes.
pub(crate) fn place_behind(place: Place, bytes: &[u8]) -> Place
    requires fits { PlacesFit place bytes.now }
    ensures behind { result ≡ place_behind_of place bytes.now }
    ensures line { result.line ≤ place.line + length bytes.now }
    ensures column { result.column ≤ place.column + length bytes.now }
    ensures none { place.line ≡ 0 → result.line ≡ 0 }
{
    let mut behind = place;
    for byte in bytes {
        behind = place_behind_byte(behind, *byte);
    }
    behind
}

/// What is left of a text, and the place of its first byte.
#[derive(Clone, Copy)]
pub(crate) struct Cursor<'a> {
    pub(crate) rest: &'a [u8],
    pub(crate) place: Place,
}

/// The first n bytes, or all where there are fewer.
pub(crate) fn front(text: &[u8], n: usize) -> &[u8]
    ensures { result.now ≡ take n text.now }
{
    let end = n.min(text.len());
    &text[..end]
}

/// What stands behind the first n bytes.
fn back(text: &[u8], n: usize) -> &[u8]
    ensures { result.now ≡ drop n text.now }
{
    let start = n.min(text.len());
    &text[start..]
}

/// The cursor n bytes on.
pub(crate) fn moved<'a>(cursor: Cursor<'a>, n: usize) -> Cursor<'a>
    requires fits { PlacesFit cursor.place cursor.rest.now }
    ensures rest { result.rest.now ≡ drop n cursor.entry.rest.now }
    ensures place { result.place ≡ place_behind_of cursor.entry.place (take n cursor.entry.rest.now) }
    ensures fits { PlacesFit result.place result.rest.now }
{
    let place = place_behind(cursor.place, front(cursor.rest, n));
    Cursor {
        rest: back(cursor.rest, n),
        place,
    }
}
