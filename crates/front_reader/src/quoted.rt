// What stands between quotes: strings and bar symbols.

ghost use Rattle.std.specs.Prelude.{◌≡◌, ◌≤◌, ◌<◌, false, length, take, IfOk, OnOk, ◌++◌};
ghost use Rattle.front_reader.specs.Atoms.{may_stand as may_stand_of};
ghost use Rattle.front_reader.specs.bridge.Lexemes as bridge;
ghost use Rattle.front_reader.specs.bridge.Scanning.{QuotedWithin};

use crate::characters::is_printed;
use crate::lexeme::{Lexed, Lexeme};
use base::{Bytes, NoMemory, Reason};
use std::alloc::Global;

/// The longest name of a symbol.
pub(crate) const LONGEST_NAME: usize = 256;

/// How the bytes behind a quote go on: the other quote stands behind so many, or there is none, or
/// a byte that may not stand there stands behind so many.
#[derive(Clone, Copy)]
pub(crate) enum Quoted {
    Closed(usize),
    Unclosed,
    Bad(usize),
}

// Whether a byte may stand between such quotes.
fn may_stand(quote: u8, byte: u8) -> bool
    ensures { result ≡ may_stand_of quote byte }
{
    quote == b'"' || is_printed(byte)
}

// How the bytes behind a quote go on.
#[tactic(auto, using(crate::proofs::Scans::quotes))]
fn scan(quote: u8, rest: &[u8]) -> Quoted
    ensures quoted { result ≡ bridge.quoted_from quote false 0 rest.now }
    ensures within { QuotedWithin result rest.now }
{
    let mut escaped = false;
    for (i, byte) in rest.iter().enumerate() {
        if !escaped && *byte == quote {
            return Quoted::Closed(i);
        }
        if !escaped && *byte == b'\\' {
            escaped = true;
        } else if may_stand(quote, *byte) {
            escaped = false;
        } else {
            return Quoted::Bad(i);
        }
    }
    Quoted::Unclosed
}

/// Behind `"`.
pub(crate) fn text_lexed(rest: &[u8]) -> Lexed
    ensures { result ≡ bridge.text_lexed (bridge.quoted_from 34 false 0 rest.now) }
{
    match scan(b'"', rest) {
        Quoted::Closed(n) => Lexed::Taken(n + 2, Lexeme::Text),
        Quoted::Unclosed => Lexed::Fault(0, Reason::UnclosedString),
        Quoted::Bad(n) => Lexed::Fault(n + 1, Reason::BadByte),
    }
}

/// Behind `|`.
pub(crate) fn bar_lexed(rest: &[u8]) -> Lexed
    ensures { result ≡ bridge.bar_lexed (bridge.quoted_from 124 false 0 rest.now) rest.now }
{
    match scan(b'|', rest) {
        Quoted::Closed(n) => {
            if content_length(&rest[..n]) > LONGEST_NAME {
                Lexed::Fault(0, Reason::NameTooLong)
            } else {
                Lexed::Taken(n + 2, Lexeme::Bar)
            }
        }
        Quoted::Unclosed => Lexed::Fault(0, Reason::UnclosedString),
        Quoted::Bad(n) => Lexed::Fault(n + 1, Reason::BadByte),
    }
}

// How many bytes stand between quotes, where a `\` and a byte count one.
#[tactic(auto, using(crate::proofs::Scans::contents))]
fn content_length(bytes: &[u8]) -> usize
    ensures { result ≡ length (bridge.unescaped false bytes.now) }
{
    let mut escaped = false;
    let mut count = 0;
    for byte in bytes {
        if !escaped && *byte == b'\\' {
            escaped = true;
        } else {
            escaped = false;
            count += 1;
        }
    }
    count
}

/// The content between quotes.
#[tactic(auto, using(crate::proofs::Scans::copies))]
pub(crate) fn content(alloc: Global, bytes: &[u8]) -> Result<Bytes, NoMemory>
    ensures { IfOk result (λ content. content ≡ bridge.unescaped false bytes.now) }
{
    let mut content = Bytes::new(alloc);
    let mut escaped = false;
    for byte in bytes {
        if !escaped && *byte == b'\\' {
            escaped = true;
        } else {
            escaped = false;
            content.push(*byte)?;
        }
    }
    Ok(content)
}
