// Bytes as the tables write them.

use crate::answer::RowAnswer;
use base::Bytes;

/// Appends the bytes that a text stands for: `\n` is byte 10, `\t` byte 9, `\s` a blank, `\\` a
/// backslash, `\#` a number sign, `\xHH` the byte of that hexadecimal number, and `\{N TEXT\}` what
/// TEXT stands for, N times.
pub fn unescape(got: &mut RowAnswer, bytes: &mut Bytes, text: &str) -> Option<()> {
    let mut repetition = Repetition { times: 1, start: 0 };
    let mut state = EscapeState::Plain;
    for byte in text.as_bytes() {
        state = take(got, bytes, &mut repetition, state, *byte)?;
    }
    match state {
        EscapeState::Plain => Some(()),
        _ => None,
    }
}

// What the next byte is part of.
#[derive(Clone, Copy)]
enum EscapeState {
    // Nothing that has begun.
    Plain,
    // An escape, behind its backslash.
    Escape,
    // A hexadecimal number, whose first digit it is.
    HighDigit,
    // A hexadecimal number behind this first digit.
    LowDigit(u32),
    // How often a repetition is, behind these digits.
    Times(u32),
}

// How often a part stands there, and where it begins.
#[derive(Drop)]
struct Repetition {
    times: u32,
    start: usize,
}

// Takes the next byte, and says what the one behind it is part of.
fn take(
    got: &mut RowAnswer,
    bytes: &mut Bytes,
    repetition: &mut Repetition,
    state: EscapeState,
    byte: u8,
) -> Option<EscapeState> {
    match state {
        EscapeState::Plain => Some(take_plain(got, bytes, byte)),
        EscapeState::Escape => take_escape(got, bytes, repetition, byte),
        EscapeState::HighDigit => Some(EscapeState::LowDigit(char::from(byte).to_digit(16)?)),
        EscapeState::LowDigit(high) => take_low_digit(got, bytes, high, byte),
        EscapeState::Times(times) => take_times(bytes, repetition, times, byte),
    }
}

fn take_plain(got: &mut RowAnswer, bytes: &mut Bytes, byte: u8) -> EscapeState {
    if byte == b'\\' {
        return EscapeState::Escape;
    }
    got.add(bytes, byte);
    EscapeState::Plain
}

fn take_escape(
    got: &mut RowAnswer,
    bytes: &mut Bytes,
    repetition: &Repetition,
    byte: u8,
) -> Option<EscapeState> {
    match byte {
        b'x' => Some(EscapeState::HighDigit),
        b'{' => Some(EscapeState::Times(0)),
        b'}' => repeat(got, bytes, repetition),
        _ => {
            got.add(bytes, escaped(byte)?);
            Some(EscapeState::Plain)
        }
    }
}

fn take_low_digit(
    got: &mut RowAnswer,
    bytes: &mut Bytes,
    high: u32,
    byte: u8,
) -> Option<EscapeState> {
    let low = char::from(byte).to_digit(16)?;
    let number = high.saturating_mul(16).saturating_add(low);
    got.add(bytes, u8::try_from(number).ok()?);
    Some(EscapeState::Plain)
}

fn take_times(
    bytes: &Bytes,
    repetition: &mut Repetition,
    times: u32,
    byte: u8,
) -> Option<EscapeState> {
    if byte == b' ' {
        repetition.times = times;
        repetition.start = bytes.len();
        return Some(EscapeState::Plain);
    }
    let digit = char::from(byte).to_digit(10)?;
    Some(EscapeState::Times(times.saturating_mul(10).saturating_add(digit)))
}

// The end of a repetition, whose part stands there once already.
fn repeat(got: &mut RowAnswer, bytes: &mut Bytes, repetition: &Repetition) -> Option<EscapeState> {
    let part = bytes.as_slice().get(repetition.start..)?;
    let part = got.kept(Bytes::from_slice(got.alloc, part))?;
    for _ in 1..repetition.times {
        got.add_bytes(bytes, part.as_slice());
    }
    drop(part);
    Some(EscapeState::Plain)
}

// The byte that stands for itself or another one behind a backslash.
fn escaped(byte: u8) -> Option<u8> {
    match byte {
        b'n' => Some(b'\n'),
        b't' => Some(b'\t'),
        b's' => Some(b' '),
        b'\\' | b'#' => Some(byte),
        _ => None,
    }
}
