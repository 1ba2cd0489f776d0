// Loads from the arena's words and stores into them, by words, halves and bytes (RISC-V Unprivileged
// ISA, 2.6). A half is two bytes at a multiple of 2, a word four at a multiple of 4.

ghost use Rattle.std.specs.Prelude.{◌≡◌, ◌+◌, ◌*◌, ◌/◌, ◌<◌, IfSome, option_map};
ghost use Rattle.rv_machine.specs.Arithmetic.{sign_extended};
ghost use Rattle.rv_machine.specs.Memory.{number_at, bytes_of};
ghost use Rattle.rv_machine.specs.Words.{HasStored, OneWord, with_half as with_half_of, with_byte as with_byte_of};

use super::arithmetic::{extended8, extended16};

// The word at an address, where that is aligned and in the arena.
pub fn word_at(arena: &[u32], address: u32) -> Option<u32>
    ensures { result ≡ number_at 4 address (bytes_of arena.now) }
{
    let place = (address / 4) as usize;
    if address % 4 == 0 && place < arena.len() {
        Some(arena[place])
    } else {
        None
    }
}

// The half at an address, where that is aligned and in the arena.
pub fn half_at(arena: &[u32], address: u32) -> Option<u32>
    ensures exact { result ≡ number_at 2 address (bytes_of arena.now) }
    ensures half { IfSome result (λ half. half < 65536) }
{
    let place = (address / 4) as usize;
    if address % 2 == 0 && place < arena.len() {
        Some((arena[place] >> (8 * (address % 4))) % 65536)
    } else {
        None
    }
}

// The byte at an address, where that is in the arena.
pub fn byte_at(arena: &[u32], address: u32) -> Option<u32>
    ensures exact { result ≡ number_at 1 address (bytes_of arena.now) }
    ensures byte { IfSome result (λ byte. byte < 256) }
{
    let place = (address / 4) as usize;
    if place < arena.len() {
        Some((arena[place] >> (8 * (address % 4))) % 256)
    } else {
        None
    }
}

// The byte at an address with its highest bit repeated.
pub fn signed_byte_at(arena: &[u32], address: u32) -> Option<u32>
    ensures { result ≡ option_map (sign_extended 8) (number_at 1 address (bytes_of arena.now)) }
{
    match byte_at(arena, address) {
        Some(byte) => Some(extended8(byte)),
        None => None,
    }
}

// The half at an address with its highest bit repeated.
pub fn signed_half_at(arena: &[u32], address: u32) -> Option<u32>
    ensures { result ≡ option_map (sign_extended 16) (number_at 2 address (bytes_of arena.now)) }
{
    match half_at(arena, address) {
        Some(half) => Some(extended16(half)),
        None => None,
    }
}

// Stores a word, where the address is aligned and in the arena, and says whether it was.
pub fn store_word(arena: &mut [u32], address: u32, value: u32) -> bool
    ensures stored { HasStored 4 address value result arena.old arena.new }
    ensures others { OneWord (address / 4) arena.old arena.new }
{
    let place = (address / 4) as usize;
    if address % 4 == 0 && place < arena.len() {
        arena[place] = value;
        true
    } else {
        false
    }
}

// Stores the lower half of a word, where the address is aligned and in the arena, and says whether it
// was.
pub fn store_half(arena: &mut [u32], address: u32, value: u32) -> bool
    ensures stored { HasStored 2 address value result arena.old arena.new }
    ensures others { OneWord (address / 4) arena.old arena.new }
{
    let place = (address / 4) as usize;
    if address % 2 == 0 && place < arena.len() {
        arena[place] = with_half(arena[place], address % 4, value % 65536);
        true
    } else {
        false
    }
}

// Stores the lowest byte of a word, where the address is in the arena, and says whether it was.
pub fn store_byte(arena: &mut [u32], address: u32, value: u32) -> bool
    ensures stored { HasStored 1 address value result arena.old arena.new }
    ensures others { OneWord (address / 4) arena.old arena.new }
{
    let place = (address / 4) as usize;
    if place < arena.len() {
        arena[place] = with_byte(arena[place], address % 4, value % 256);
        true
    } else {
        false
    }
}

// A word with another half at one of its two places, 0 or 2.
fn with_half(word: u32, place: u32, half: u32) -> u32
    requires { half < 65536 }
    ensures { result ≡ with_half_of word place half }
{
    match place {
        0 => word / 65536 * 65536 + half,
        _ => half * 65536 + word % 65536,
    }
}

// A word with another byte at one of its four places.
fn with_byte(word: u32, place: u32, byte: u32) -> u32
    requires { byte < 256 }
    ensures { result ≡ with_byte_of word place byte }
{
    match place {
        0 => word / 256 * 256 + byte,
        1 => word / 65536 * 65536 + byte * 256 + word % 256,
        2 => word / 16777216 * 16777216 + byte * 65536 + word % 65536,
        _ => byte * 16777216 + word % 16777216,
    }
}
