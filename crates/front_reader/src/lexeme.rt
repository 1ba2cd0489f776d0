// Lexemes: what a text is read as piece by piece, behind its gaps.

ghost use Rattle.std.specs.Prelude.{◌≡◌, length, ◌<◌};
ghost use Rattle.front_reader.specs.bridge.Lexemes.{lex as lex_of, mark_lexed, comma_lexed};

use crate::characters::is_token;
use crate::opening::{Opening, Prefix};
use crate::quoted::{bar_lexed, text_lexed};
use crate::sharp::sharp_lexed;
use crate::token::{token_lexed, token_run};
use base::Reason;

/// A lexeme. An integer and a character are told with it; a symbol and a string are spelled by the
/// bytes that it takes.
#[derive(Clone, Copy)]
pub(crate) enum Lexeme {
    Close,
    Dot,
    Open(Opening),
    Integer(i32),
    Character(u8),
    // a token that is a symbol
    Token,
    // a symbol between bars
    Bar,
    // a string
    Text,
}

/// A lexeme of so many bytes, or a fault so many bytes behind.
#[derive(Clone, Copy)]
pub(crate) enum Lexed {
    Taken(usize, Lexeme),
    Fault(usize, Reason),
}

/// What a text begins with that has a byte and no gap before it.
#[tactic(auto, using(crate::proofs::Scans::lexes))]
pub(crate) fn lex(text: &[u8]) -> Lexed
    requires { 0 < length text.now }
    ensures { result ≡ lex_of text.now }
{
    if is_token(text[0]) {
        token_lexed(&text[..token_run(text)])
    } else {
        mark(text[0], &text[1..])
    }
}

// What begins with a byte that is no token character.
#[tactic(auto, unfolding(crate::specs::bridge::Lexemes::mark_lexed))]
fn mark(byte: u8, rest: &[u8]) -> Lexed
    ensures { result ≡ mark_lexed byte rest.now }
{
    match byte {
        b'(' => Lexed::Taken(1, Lexeme::Open(Opening::List)),
        b')' => Lexed::Taken(1, Lexeme::Close),
        b'\'' => Lexed::Taken(1, Lexeme::Open(Opening::Before(Prefix::Quote))),
        b'`' => Lexed::Taken(1, Lexeme::Open(Opening::Before(Prefix::Quasiquote))),
        b',' => comma(rest),
        b'"' => text_lexed(rest),
        b'|' => bar_lexed(rest),
        b'#' => sharp_lexed(rest),
        _ => Lexed::Fault(0, Reason::BadByte),
    }
}

// Behind a `,`.
fn comma(rest: &[u8]) -> Lexed
    ensures { result ≡ comma_lexed rest.now }
{
    match rest.first() {
        Some(b'@') => Lexed::Taken(2, Lexeme::Open(Opening::Before(Prefix::UnquoteSplicing))),
        _ => Lexed::Taken(1, Lexeme::Open(Opening::Before(Prefix::Unquote))),
    }
}
