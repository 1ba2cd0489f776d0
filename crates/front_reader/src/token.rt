// Tokens: runs of token characters, and whether they are integers, floats, the dot or symbols.

ghost use Rattle.std.specs.Prelude.{◌≡◌, ◌≤◌, ◌<◌, length, nat_lt, MatchOption};
ghost use Rattle.std.specs.List.{list_all};
ghost use Rattle.front_reader.specs.Tokens as spec;
ghost use Rattle.front_reader.specs.bridge.Lexemes as bridge;
ghost use Rattle.front_reader.specs.Characters as characters;

use crate::characters::{digit_value, is_digit, is_token};
use crate::lexeme::{Lexed, Lexeme};
use crate::quoted::LONGEST_NAME;
use base::Reason;

// The greatest magnitude of an integer: that of the least one.
const GREATEST: u32 = 536_870_912;

/// How many token characters a text begins with.
#[tactic(auto, using(crate::proofs::Scans::runs))]
pub(crate) fn token_run(text: &[u8]) -> usize
    ensures run { result ≡ bridge.token_run text.now }
    ensures within { result ≤ length text.now }
{
    for (i, byte) in text.iter().enumerate() {
        if !is_token(*byte) {
            return i;
        }
    }
    text.len()
}

// What stands behind a sign, if there is one.
fn behind_sign(word: &[u8]) -> &[u8]
    ensures { result.now ≡ spec.behind_sign word.now }
{
    match word {
        [b'+' | b'-', rest @ ..] => rest,
        _ => word,
    }
}

// What stands behind decimal digits.
fn behind_digits(word: &[u8]) -> &[u8]
    ensures { result.now ≡ spec.behind_digits word.now }
{
    for (i, byte) in word.iter().enumerate() {
        if !is_digit(*byte) {
            return &word[i..];
        }
    }
    &[]
}

fn are_digits(base: u32, word: &[u8]) -> bool
    ensures { result ≡ spec.are_digits base word.now }
{
    match word.first() {
        None => false,
        Some(first) => digit_value(*first) < base && all_digits(base, word),
    }
}

fn all_digits(base: u32, word: &[u8]) -> bool
    ensures { result ≡ list_all (λ b. nat_lt (characters.digit_value b) base) word.now }
{
    for byte in word {
        if digit_value(*byte) >= base {
            return false;
        }
    }
    true
}

/// Whether a word is a sign or none and digits of the base.
pub(crate) fn is_integer(base: u32, word: &[u8]) -> bool
    ensures { result ≡ spec.is_integer base word.now }
{
    are_digits(base, behind_sign(word))
}

// Whether a word begins with a decimal digit.
fn begins_digit(word: &[u8]) -> bool
    ensures { result ≡ characters.begins characters.is_digit word.now }
{
    match word.first() {
        None => false,
        Some(first) => is_digit(*first),
    }
}

// `[eE][+-]?[0-9]+`
fn is_exponent(word: &[u8]) -> bool
    ensures { result ≡ spec.is_exponent word.now }
{
    match word {
        [b'e' | b'E', rest @ ..] => is_integer(10, rest),
        _ => false,
    }
}

// `.[0-9]+` and perhaps an exponent.
fn is_fraction(word: &[u8]) -> bool
    ensures { result ≡ spec.is_fraction word.now }
{
    match word {
        [b'.', rest @ ..] => begins_digit(rest) && may_be_exponent(behind_digits(rest)),
        _ => false,
    }
}

// An exponent or nothing.
fn may_be_exponent(word: &[u8]) -> bool
    ensures { result ≡ spec.may_be_exponent word.now }
{
    word.is_empty() || is_exponent(word)
}

#[tactic(auto, unfolding(crate::specs::Tokens::is_float))]
pub(crate) fn is_float(word: &[u8]) -> bool
    ensures { result ≡ spec.is_float word.now }
{
    let digits = behind_sign(word);
    let rest = behind_digits(digits);
    begins_digit(digits) && (is_fraction(rest) || is_exponent(rest))
}

fn is_negative(word: &[u8]) -> bool
    ensures { result ≡ spec.is_negative word.now }
{
    match word.first() {
        None => false,
        Some(first) => *first == b'-',
    }
}

// The number that digits spell; none where it is above the greatest magnitude.
#[tactic(auto, using(crate::proofs::Magnitudes::digits))]
fn magnitude(base: u32, digits: &[u8]) -> Option<u32>
    requires low { 1 ≤ base }
    requires high { base ≤ 16 }
    ensures { MatchOption result (GREATEST < spec.digits_value base 0 digits.now)
        (λ n. (n ≡ spec.digits_value base 0 digits.now) × (n ≤ GREATEST)) }
{
    let mut sum: u64 = 0;
    for b in digits {
        sum = sum * u64::from(base) + u64::from(digit_value(*b));
        if sum > u64::from(GREATEST) {
            return None;
        }
    }
    Some(sum as u32)
}

/// A spelling of n bytes whose sign and digits are this word.
#[tactic(auto, using(crate::proofs::Magnitudes::widths), unfolding(crate::specs::Tokens::magnitude))]
pub(crate) fn integer_lexed(base: u32, n: usize, word: &[u8]) -> Lexed
    requires low { 1 ≤ base }
    requires high { base ≤ 16 }
    ensures { result ≡ bridge.integer_lexed base n word.now }
{
    let wide = Lexed::Fault(0, Reason::IntegerTooWide);
    let Some(magnitude) = magnitude(base, behind_sign(word)) else {
        return wide;
    };
    if is_negative(word) {
        Lexed::Taken(n, Lexeme::Integer(-(magnitude as i32)))
    } else if magnitude == GREATEST {
        wide
    } else {
        Lexed::Taken(n, Lexeme::Integer(magnitude as i32))
    }
}

// `.` alone.
fn is_dot(word: &[u8]) -> bool
    ensures { result ≡ spec.is_dot word.now }
{
    match word {
        [byte] => *byte == b'.',
        _ => false,
    }
}

/// What a token is.
#[tactic(auto, unfolding(crate::specs::bridge::Lexemes::token_lexed))]
pub(crate) fn token_lexed(word: &[u8]) -> Lexed
    ensures { result ≡ bridge.token_lexed word.now }
{
    if is_integer(10, word) {
        integer_lexed(10, word.len(), word)
    } else if is_float(word) {
        Lexed::Fault(0, Reason::FloatLiteral)
    } else if is_dot(word) {
        Lexed::Taken(word.len(), Lexeme::Dot)
    } else if word.len() > LONGEST_NAME {
        Lexed::Fault(0, Reason::NameTooLong)
    } else {
        Lexed::Taken(word.len(), Lexeme::Token)
    }
}
