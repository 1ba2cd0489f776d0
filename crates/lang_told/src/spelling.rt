// Values without parts are printed so that they can be read again.

ghost use Rattle.std.specs.Prelude.{◌≡◌, ◌==◌, ◌||◌, ◌&&◌, nat_le, ◌++◌, [], ◌∷◌, OnOk, codes};
ghost use Rattle.std.specs.List.{list_all, list_any};
ghost use Rattle.std.specs.Str.{bytes_eq};
ghost use Rattle.std.specs.Fmt.{signed_decimal};
ghost use Rattle.lang_told.specs.Spelled.{between, escaped, character_text, name_text, fresh_text, is_plain, is_name_byte, begins_number, is_digit as is_digit_byte};

use base::{Bytes, NoMemory};
use std::alloc::Global;

/// Appends the decimal digits of an integer.
pub fn append_integer(alloc: Global, out: &mut Bytes, number: i32) -> Result<(), NoMemory>
    ensures { OnOk result (out.new ≡ out.old ++ signed_decimal number) }
{
    let Ok(text) = format!(in alloc; "{number}") else {
        return Err(NoMemory);
    };
    out.append(text.as_bytes())
}

/// Appends a character.
#[tactic(auto, unfolding(crate::specs::Spelled::character_text))]
pub fn append_character(out: &mut Bytes, code: u8) -> Result<(), NoMemory>
    ensures { OnOk result (out.new ≡ out.old ++ character_text code) }
{
    match code {
        b' ' => out.append(b"#\\space"),
        b'\n' => out.append(b"#\\newline"),
        _ => out.append(&[b'#', b'\\', code]),
    }
}

/// Appends a string.
pub fn append_string(out: &mut Bytes, bytes: &[u8]) -> Result<(), NoMemory>
    ensures { OnOk result (out.new ≡ out.old ++ between 34 bytes.now) }
{
    append_between(out, b'"', bytes)
}

/// Appends the name of a symbol, in bars unless it is read as it stands.
pub fn append_name(out: &mut Bytes, name: &[u8]) -> Result<(), NoMemory>
    ensures { OnOk result (out.new ≡ out.old ++ name_text name.now) }
{
    if is_plain(name) {
        out.append(name)
    } else {
        append_between(out, b'|', name)
    }
}

/// Appends a symbol that was made, by its serial.
pub fn append_fresh(alloc: Global, out: &mut Bytes, serial: u64) -> Result<(), NoMemory>
    ensures { OnOk result (out.new ≡ out.old ++ fresh_text serial) }
{
    let number = serial % 536_870_912;
    let Ok(text) = format!(in alloc; "{number}") else {
        return Err(NoMemory);
    };
    out.append(b"#:g")?;
    out.append(text.as_bytes())
}

// Appends bytes between two marks, with `\` before each such mark and each `\`.
fn append_between(out: &mut Bytes, mark: u8, bytes: &[u8]) -> Result<(), NoMemory>
    ensures { OnOk result (out.new ≡ out.old ++ between mark bytes.now) }
{
    out.push(mark)?;
    for byte in bytes {
        append_escaped(out, mark, *byte)?;
    }
    out.push(mark)
}

fn append_escaped(out: &mut Bytes, mark: u8, byte: u8) -> Result<(), NoMemory>
    ensures { OnOk result (out.new ≡ out.old ++ escaped mark (byte ∷ [])) }
{
    if byte == mark || byte == b'\\' {
        out.append(&[b'\\', byte])
    } else {
        out.push(byte)
    }
}

// Whether a name is read as that symbol without bars.
#[tactic(auto, unfolding(crate::specs::Spelled::is_plain))]
fn is_plain(name: &[u8]) -> bool
    ensures { result ≡ is_plain name.now }
{
    !name.is_empty() && all_are_of_names(name) && !is_dot(name) && !begins_number(name)
}

fn all_are_of_names(name: &[u8]) -> bool
    ensures { result ≡ list_all is_name_byte name.now }
{
    for byte in name {
        if !is_name_byte(*byte) {
            return false;
        }
    }
    true
}

// Whether it begins as a number does.
#[tactic(auto, unfolding(crate::specs::Spelled::begins_number))]
fn begins_number(name: &[u8]) -> bool
    ensures { result ≡ begins_number name.now }
{
    match name {
        [] => false,
        [first] => is_digit(*first),
        [first, second, ..] => is_digit(*first) || (is_sign(*first) && is_digit(*second)),
    }
}

// The bytes of names that are no digits and no letters.
const OTHERS: &[u8; 22] = b"!$%&*+-./:<=>?^_~@[]{}";

#[tactic(auto, unfolding(crate::specs::Spelled::is_name_byte))]
fn is_name_byte(byte: u8) -> bool
    ensures { result ≡ is_name_byte byte }
{
    is_small(byte) || is_digit(byte) || is_other(byte)
}

fn is_small(byte: u8) -> bool
    ensures { result ≡ nat_le 97 byte && nat_le byte 122 }
{
    97 <= byte && byte <= 122
}

fn is_digit(byte: u8) -> bool
    ensures { result ≡ is_digit_byte byte }
{
    48 <= byte && byte <= 57
}

fn is_other(byte: u8) -> bool
    ensures { result ≡ list_any (λ c. byte == c) (codes "!$%&*+-./:<=>?^_~@[]{}") }
{
    OTHERS.iter().any(|c| byte == *c)
}

fn is_sign(byte: u8) -> bool
    ensures { result ≡ (byte == 43 || byte == 45) }
{
    byte == b'+' || byte == b'-'
}

fn is_dot(name: &[u8]) -> bool
    ensures { result ≡ bytes_eq name.now (codes ".") }
{
    match name {
        [byte] => *byte == b'.',
        _ => false,
    }
}
