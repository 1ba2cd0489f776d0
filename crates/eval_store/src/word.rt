// The words of a run: each value of the language in at most 16 bytes.

use base::Name;
use std::mem::size_of;

/// A value: nil; the symbol `t`; an integer of 30 bits, a character, a symbol by its name, a symbol that an expansion made, or an object
/// by its number in the store. The symbol `t` may stand as a symbol by its name too.
#[derive(Clone, Copy)]
pub enum Word {
    Nil,
    True,
    Integer(i32),
    Character(u8),
    Symbol(Name),
    Unnamed { expansion: u32, serial: u64 },
    Object(usize),
}

const _: () = prove!(size_of::<Word>() <= 16);
