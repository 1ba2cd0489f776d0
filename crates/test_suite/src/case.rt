// A case of the table, made line by line.

use crate::given::CallInput;
use crate::text::{append, append_hex};
use base::Bytes;
use std::alloc::Global;

/// A case: its title, what the call is given, and what it must answer.
#[derive(Drop)]
pub struct Case {
    pub title: String,
    pub given: CallInput,
    pub status: u8,
    pub printed: Bytes,
    pub line: Bytes,
}

impl Case {
    /// A case without a title, that is given nothing and wants status 0 and nothing written.
    pub fn new(alloc: Global) -> Case {
        Case {
            title: String::new(alloc),
            given: CallInput::nothing(alloc),
            status: 0,
            printed: Bytes::new(alloc),
            line: Bytes::new(alloc),
        }
    }

    /// Takes a line of the case; none where it can't be read, or where memory was wanting.
    pub fn take(&mut self, key: &str, value: &str) -> Option<()> {
        match key {
            "case" => self.title.push_str(value).ok(),
            "status" => {
                self.status = value.parse().ok()?;
                Some(())
            }
            "printed" => append(&mut self.printed, value),
            "line" => append(&mut self.line, value),
            _ => take_given(&mut self.given, key, value),
        }
    }
}

// Takes a line of what the call is given.
fn take_given(given: &mut CallInput, key: &str, value: &str) -> Option<()> {
    match key {
        "word" => given.words.push(value).ok(),
        "text" => append(&mut given.text, value),
        "hex" => append_hex(&mut given.text, value),
        "built" => {
            given.is_built = true;
            Some(())
        }
        "times" => append_times(&mut given.text, value),
        "input" => append(&mut given.input, value),
        "shelf_fails" => given.shelf_fails.push(value.parse().ok()?).ok(),
        "out_fails" => given.out_fails.push(value.parse().ok()?).ok(),
        "input_fails" => given.input_fails.push(value.parse().ok()?).ok(),
        "err_fails" => given.err_fails.push(value.parse().ok()?).ok(),
        _ => None,
    }
}

// Appends a text so many times, as `64 (`.
fn append_times(bytes: &mut Bytes, value: &str) -> Option<()> {
    let (count, text) = value.split_once(' ')?;
    for _ in 0..count.parse::<u32>().ok()? {
        append(bytes, text)?;
    }
    Some(())
}
