// Words, addresses and numbers of classes that the code of primitives names.

/// The tags of conses and of other objects.
pub const CONS: u32 = 1;

pub const OBJECT: u32 = 2;

/// Tags as the two highest bits of a word.
pub const INTEGER_BITS: u32 = 0;

pub const CONS_BITS: u32 = 1073741824;

pub const OBJECT_BITS: u32 = 2147483648;

/// Words that are no integers and no pointers.
pub const NIL: u32 = 3;

pub const UNBOUND: u32 = 7;

pub const SIGNAL: u32 = 11;

/// Headers of objects.
pub const STRING: u32 = 1;

pub const VECTOR: u32 = 2;

pub const FUNCTION: u32 = 4;

pub const GENERIC: u32 = 5;

pub const CLASS: u32 = 6;

pub const INPUT: u32 = 7;

pub const OUTPUT: u32 = 8;

pub const SYMBOL: u32 = 9;

pub const FRESH: u32 = 10;

/// The addresses of the words of built-in classes: four times their numbers.
pub const VECTOR_CLASS: i32 = 12;

pub const STRING_CLASS: i32 = 16;

pub const CHARACTER_CLASS: i32 = 20;

pub const FUNCTION_CLASS: i32 = 24;

pub const GENERIC_CLASS: i32 = 28;

pub const CONS_CLASS: i32 = 36;

pub const SYMBOL_CLASS: i32 = 40;

pub const NULL_CLASS: i32 = 44;

pub const INTEGER_CLASS: i32 = 52;

pub const STREAM_CLASS: i32 = 56;

pub const BUILT_IN_CLASS: i32 = 60;

pub const STANDARD_CLASS: i32 = 64;

pub const STANDARD_OBJECT: i32 = 68;

pub const SERIOUS_CONDITION: i32 = 72;

pub const PROGRAM_ERROR: i32 = 96;

pub const DIVISION_BY_ZERO: i32 = 108;

pub const INTEGER_OVERFLOW: i32 = 112;

pub const DOMAIN_ERROR: i32 = 116;

/// Fixed addresses.
pub const INPUT_STREAM_AT: i32 = 136;

pub const OUTPUT_STREAM_AT: i32 = 140;

pub const TRUE_AT: i32 = 144;

pub const SERIAL_AT: i32 = 148;

pub const LINE_AT: i32 = 152;

pub const PEEKED_AT: i32 = 156;

pub const NIL_NAME_AT: u32 = 164;

pub const NO_NAME_AT: u32 = 176;

pub const PENDING_AT: i32 = 160;

/// Offsets from the word of a cons, and from that of another object.
pub const CAR: i32 = -1;

pub const CDR: i32 = 3;

pub const HEADER: i32 = -2;

pub const SECOND: i32 = 2;

pub const THIRD: i32 = 6;
