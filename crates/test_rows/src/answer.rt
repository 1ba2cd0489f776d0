// What a row answers, written piece by piece.

use base::{Bytes, ItemList, Place, Stop};
use std::alloc::Global;
use std::fmt::{Debug, Display};

/// The answer of a row so far, and where memory comes from. Once memory was wanting, it stays so.
#[derive(Drop)]
pub struct RowAnswer {
    pub alloc: Global,
    text: String,
    lacks_memory: bool,
}

impl RowAnswer {
    /// Nothing yet.
    pub fn new(alloc: Global) -> RowAnswer {
        RowAnswer {
            alloc,
            text: String::new(alloc),
            lacks_memory: false,
        }
    }

    /// What the row answers, where its calls gave an answer.
    pub fn told(&self, is_answered: bool) -> &str {
        if self.lacks_memory {
            "no memory"
        } else if is_answered {
            self.text.as_str()
        } else {
            "bad row"
        }
    }

    /// What a call gave; none where memory was wanting.
    pub fn kept<T, E: Drop>(&mut self, given: Result<T, E>) -> Option<T> {
        match given {
            Ok(value) => Some(value),
            Err(_) => {
                self.lacks_memory = true;
                None
            }
        }
    }

    /// Appends an item to a list.
    pub fn add<T: Drop>(&mut self, list: &mut ItemList<T>, item: T) {
        if list.push(item).is_err() {
            self.lacks_memory = true;
        }
    }

    /// Appends bytes to others.
    pub fn add_bytes(&mut self, list: &mut Bytes, bytes: &[u8]) {
        if list.append(bytes).is_err() {
            self.lacks_memory = true;
        }
    }

    /// Appends a value.
    pub fn put<T: Display + Drop>(&mut self, value: T) {
        if write!(self.text, "{value}").is_err() {
            self.lacks_memory = true;
        }
    }

    /// Appends a value as the language of this program writes it.
    pub fn put_debug<T: Debug>(&mut self, value: &T) {
        if write!(self.text, "{value:?}").is_err() {
            self.lacks_memory = true;
        }
    }

    /// Appends a word in hexadecimal.
    pub fn put_word(&mut self, word: u32) {
        if write!(self.text, "{word:08x}").is_err() {
            self.lacks_memory = true;
        }
    }

    /// Appends one byte: one that is neither a blank nor a letter, digit or mark of ASCII is written
    /// by its escape.
    pub fn put_byte(&mut self, byte: u8) {
        match byte {
            b'\n' => self.put("\\n"),
            b'\t' => self.put("\\t"),
            b'\\' => self.put("\\\\"),
            b' '..=b'~' => self.put(char::from(byte)),
            _ => self.put_escaped(byte),
        }
    }

    // Appends a byte by its number in hexadecimal.
    fn put_escaped(&mut self, byte: u8) {
        if write!(self.text, "\\x{byte:02x}").is_err() {
            self.lacks_memory = true;
        }
    }

    /// Appends bytes so.
    pub fn put_bytes(&mut self, bytes: &[u8]) {
        for byte in bytes {
            self.put_byte(*byte);
        }
    }

    /// Appends a place.
    pub fn put_place(&mut self, place: Place) {
        self.put(place.line);
        self.put(":");
        self.put(place.column);
    }

    /// Appends the reason of a refusal and its place.
    pub fn put_stop(&mut self, stop: Stop) {
        match stop {
            Stop::Refused(refusal) => {
                self.put(refusal.reason.text());
                self.put("@");
                self.put_place(refusal.place);
            }
            Stop::NoMemory => self.lacks_memory = true,
        }
    }

    /// Appends a list of numbers, as `(2 1 0)`.
    pub fn put_list(&mut self, numbers: &[usize]) {
        self.put("(");
        let mut is_first = true;
        for number in numbers {
            self.put(if is_first { "" } else { " " });
            self.put(*number);
            is_first = false;
        }
        self.put(")");
    }

    /// Appends a blank where something stands already.
    pub fn begin(&mut self) {
        if !self.text.is_empty() {
            self.put(" ");
        }
    }

    /// Appends one value more, with a blank before it.
    pub fn push<T: Display + Drop>(&mut self, value: T) {
        self.begin();
        self.put(value);
    }

    /// Appends `yes` or `no` so.
    pub fn push_yes_no(&mut self, yes: bool) {
        self.push(if yes { "yes" } else { "no" });
    }

    /// Appends a number, or `none`, so.
    pub fn push_found(&mut self, number: Option<usize>) {
        match number {
            Some(number) => self.push(number),
            None => self.push("none"),
        }
    }
}
