// Bytes as the table writes them.

use base::Bytes;

/// Appends the bytes that this text stands for: `\n` is byte 10, `\t` byte 9, `\s` a blank, and a
/// backslash before another letter is that letter. None where memory was wanting.
pub fn append(bytes: &mut Bytes, text: &str) -> Option<()> {
    let mut is_escaped = false;
    for byte in text.as_bytes() {
        if *byte == b'\\' && !is_escaped {
            is_escaped = true;
        } else {
            bytes.push(read(*byte, is_escaped)).ok()?;
            is_escaped = false;
        }
    }
    Some(())
}

// The byte that a letter stands for, which may be escaped.
fn read(letter: u8, is_escaped: bool) -> u8 {
    match (is_escaped, letter) {
        (true, b'n') => b'\n',
        (true, b't') => b'\t',
        (true, b's') => b' ',
        _ => letter,
    }
}

/// Appends the bytes of these hexadecimal digits, two a byte, with blanks between them. None where there are other
/// letters, or memory was wanting.
pub fn append_hex(bytes: &mut Bytes, text: &str) -> Option<()> {
    let mut high = None;
    for letter in text.as_bytes() {
        if *letter == b' ' {
            continue;
        }
        let digit = digit_of(*letter)?;
        match high {
            None => high = Some(digit),
            Some(first) => {
                bytes.push(of_digits(first, digit)).ok()?;
                high = None;
            }
        }
    }
    match high {
        None => Some(()),
        Some(_) => None,
    }
}

// The byte of two digits.
fn of_digits(high: u8, low: u8) -> u8 {
    high.wrapping_mul(16).wrapping_add(low)
}

// The number of a hexadecimal digit.
fn digit_of(letter: u8) -> Option<u8> {
    match letter {
        b'0'..=b'9' => Some(letter - b'0'),
        b'A'..=b'F' => Some(letter - b'A' + 10),
        _ => None,
    }
}
