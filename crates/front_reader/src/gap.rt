// Gaps: the blanks and comments that a text begins with.

ghost use Rattle.std.specs.Prelude.{◌≡◌, ◌<◌, ◌≤◌, ◌+◌, ◌==◌, ◌&&◌, ℕ, List, [], ◌∷◌};
ghost use Rattle.front_reader.specs.Characters.{begins as begins_of};
ghost use Rattle.front_reader.specs.bridge.Lexemes.{skip as skip_of, mode_after_close};
ghost use Rattle.front_reader.specs.bridge.Scanning.{turned, depth_of, depth_behind};

use crate::characters::is_blank;

/// Where a text of blanks and comments stands: between two things, in a line comment, in a block
/// comment with so many around it, or before the second byte of a mark that opens or closes one.
#[derive(Clone, Copy)]
pub(crate) enum Mode {
    Between,
    InLine,
    InBlock(usize),
    Opens(usize),
    Closes(usize),
}

/// How many bytes a gap has, or where the outermost comment opens that the text does not close.
#[derive(Clone, Copy)]
pub(crate) enum Skipped {
    Ends(usize),
    OpenFrom(usize),
}

// What a byte does in a mode: the mode of the next one, the first mark of a comment, or no gap.
#[derive(Clone, Copy)]
enum Turn {
    Goes(Mode),
    Opens,
    Stops,
}

// Whether these two bytes come next.
fn is_mark(byte: u8, rest: &[u8], first: u8, second: u8) -> bool
    ensures { result ≡ (byte == first && begins_of (λ c. c == second) rest.now) }
{
    match rest.first() {
        Some(next) => byte == first && *next == second,
        None => false,
    }
}

// The mode behind the end of a comment with n around it.
#[tactic(auto, using(crate::proofs::Scans::after_close))]
fn after_close(n: usize) -> Mode
    ensures mode { result ≡ mode_after_close n }
    ensures depth { depth_of result ≤ n }
{
    match n {
        0 => Mode::Between,
        _ => Mode::InBlock(n - 1),
    }
}

// What a byte does in a mode, where this follows it.
#[tactic(auto, unfolding(crate::specs::bridge::Lexemes::skip))]
fn go_on(mode: Mode, byte: u8, rest: &[u8]) -> Turn
    requires { depth_of mode < 18446744073709551615 }
    ensures turned { (i o : ℕ) → skip_of mode i o (byte ∷ rest.now) ≡ turned result i o rest.now }
    ensures depth { depth_behind result ≤ depth_of mode + 1 }
{
    match mode {
        Mode::Between => between(byte, rest),
        Mode::InLine => in_line(byte),
        Mode::InBlock(n) => in_block(n, byte, rest),
        Mode::Opens(n) => Turn::Goes(Mode::InBlock(n)),
        Mode::Closes(n) => Turn::Goes(after_close(n)),
    }
}

#[tactic(auto, unfolding(crate::specs::bridge::Lexemes::skip))]
fn between(byte: u8, rest: &[u8]) -> Turn
    ensures turned { (i o : ℕ) → skip_of Mode.Between i o (byte ∷ rest.now) ≡ turned result i o rest.now }
    ensures depth { depth_behind result ≤ 1 }
{
    if is_blank(byte) {
        Turn::Goes(Mode::Between)
    } else if byte == b';' {
        Turn::Goes(Mode::InLine)
    } else if is_mark(byte, rest, b'#', b'|') {
        Turn::Opens
    } else {
        Turn::Stops
    }
}

#[tactic(auto, unfolding(crate::specs::bridge::Lexemes::skip))]
fn in_line(byte: u8) -> Turn
    ensures turned { (i o : ℕ) (rest : List ℕ) →
        skip_of Mode.InLine i o (byte ∷ rest) ≡ turned result i o rest }
    ensures depth { depth_behind result ≤ 1 }
{
    if byte == b'\n' {
        Turn::Goes(Mode::Between)
    } else {
        Turn::Goes(Mode::InLine)
    }
}

#[tactic(auto, unfolding(crate::specs::bridge::Lexemes::skip))]
fn in_block(n: usize, byte: u8, rest: &[u8]) -> Turn
    requires { n < 18446744073709551615 }
    ensures turned { (i o : ℕ) →
        skip_of (Mode.InBlock n) i o (byte ∷ rest.now) ≡ turned result i o rest.now }
    ensures depth { depth_behind result ≤ n + 1 }
{
    if is_mark(byte, rest, b'#', b'|') {
        Turn::Goes(Mode::Opens(n + 1))
    } else if is_mark(byte, rest, b'|', b'#') {
        Turn::Goes(Mode::Closes(n))
    } else {
        Turn::Goes(Mode::InBlock(n))
    }
}

/// The gap that a text begins with.
pub(crate) fn skip(text: &[u8]) -> Skipped
    ensures { result ≡ skip_of Mode.Between 0 0 text.now }
{
    let mut mode = Mode::Between;
    let mut opened = 0;
    for (i, byte) in text.iter().enumerate() {
        match go_on(mode, *byte, &text[i + 1..]) {
            Turn::Goes(next) => mode = next,
            Turn::Opens => {
                opened = i;
                mode = Mode::Opens(0);
            }
            Turn::Stops => return Skipped::Ends(i),
        }
    }
    at_end(mode, text.len(), opened)
}

// The gap of a text of that length that ends in a mode.
#[tactic(auto, unfolding(crate::specs::bridge::Lexemes::skip))]
fn at_end(mode: Mode, length: usize, opened: usize) -> Skipped
    ensures { result ≡ skip_of mode length opened [] }
{
    match mode {
        Mode::Between | Mode::InLine => Skipped::Ends(length),
        Mode::InBlock(_) | Mode::Opens(_) | Mode::Closes(_) => Skipped::OpenFrom(opened),
    }
}
