// The bytes of names and strings.

ghost use Rattle.std.specs.Prelude.{◌≡◌, ◌/◌, ◌%◌, ◌^◌, ℕ, List, length, IfOk};
ghost use Rattle.mid_told.specs.Parts.{BytesIn};

use crate::memory::word_in;
use base::{Bytes, NoMemory};
use std::alloc::Global;

/// So many bytes from a place on, counted in words.
pub fn bytes_in(alloc: Global, words: &[u32], at: u32, count: u32) -> Result<Bytes, NoMemory>
    ensures { IfOk result (λ read. (bytes : List ℕ) → length bytes ≡ count → BytesIn words.now at bytes → read ≡ bytes) }
{
    let mut read = Bytes::new(alloc);
    for i in 0..count as usize {
        let word = word_in(words, at as usize + i / 4);
        read.push(byte_of(word, i))?;
    }
    Ok(read)
}

// A byte of a word with four, by the place of the byte among all.
fn byte_of(word: u32, i: usize) -> u8
    ensures { result ≡ word / 256 ^ (i % 4) % 256 }
{
    match i % 4 {
        0 => (word % 256) as u8,
        1 => (word / 256 % 256) as u8,
        2 => (word / 65536 % 256) as u8,
        _ => (word / 16777216 % 256) as u8,
    }
}
