// The code of what tells values apart, of conses, of characters and of streams.

use crate::line::Line;
use crate::line::Line::{
    Compute, ComputeBy, Get, Load, LoadFixed, NeedCharacter, NeedHeader, NeedTag, NeedTest, Put,
    Request, Return, ReturnIf, Says, SaysHeader, Set, Store, StoreFixed,
};
use crate::words::{
    CAR, CDR, CONS, CONS_BITS, CONS_CLASS, FUNCTION, GENERIC, HEADER, INPUT, INPUT_STREAM_AT,
    INTEGER_BITS, INTEGER_CLASS, LINE_AT, NIL, OUTPUT, OUTPUT_STREAM_AT, PEEKED_AT, STREAM_CLASS,
    STRING, SYMBOL, TRUE_AT, VECTOR,
};
use mid_code::Arithmetic;
use mid_code::Arithmetic::{Add, Multiply, ShiftLeft, ShiftRight, Subtract};
use mid_code::Comparison::{Different, Equal, LessUnsigned};

pub const SAME: &[Line] = &[Says(Equal, 0, 1)];

pub const IS_NULL: &[Line] = &[Set(6, NIL), Says(Equal, 0, 6)];

pub const IS_CONS: &[Line] = &[
    ComputeBy(7, ShiftLeft, 0, 30),
    Set(6, CONS_BITS),
    Says(Equal, 7, 6),
];

pub const IS_INTEGER: &[Line] = &[ComputeBy(7, ShiftLeft, 0, 30), Set(6, 0), Says(Equal, 7, 6)];

/// The lowest byte of a character's word is 15, and of no other.
pub const IS_CHARACTER: &[Line] = &[
    ComputeBy(7, ShiftLeft, 0, 24),
    Set(6, 251658240),
    Says(Equal, 7, 6),
];

pub const IS_STRING: &[Line] = &[SaysHeader(STRING, 1)];

pub const IS_VECTOR: &[Line] = &[SaysHeader(VECTOR, 1)];

/// A function, or a generic function, whose headers stand side by side.
pub const IS_FUNCTION: &[Line] = &[SaysHeader(FUNCTION, 2)];

pub const IS_GENERIC: &[Line] = &[SaysHeader(GENERIC, 1)];

/// Nil is a symbol; the headers of symbols with a name and of fresh ones stand side by side.
pub const IS_SYMBOL: &[Line] = &[
    Set(6, NIL),
    LoadFixed(5, TRUE_AT),
    ReturnIf(Equal, 0, 6, 5),
    SaysHeader(SYMBOL, 2),
];

pub const MAKE_CONS: &[Line] = &[
    Set(3, 2),
    Request(3, 3),
    Store(0, 3, 0),
    Store(1, 3, 4),
    ComputeBy(3, Add, 3, CONS),
    Return(3),
];

pub const TAKE_CAR: &[Line] = &[
    NeedTag(0, CONS_BITS, CONS_CLASS),
    Load(7, 0, CAR),
    Return(7),
];

pub const TAKE_CDR: &[Line] = &[
    NeedTag(0, CONS_BITS, CONS_CLASS),
    Load(7, 0, CDR),
    Return(7),
];

pub const SET_CAR: &[Line] = &[
    NeedTag(1, CONS_BITS, CONS_CLASS),
    Store(0, 1, CAR),
    Return(0),
];

pub const SET_CDR: &[Line] = &[
    NeedTag(1, CONS_BITS, CONS_CLASS),
    Store(0, 1, CDR),
    Return(0),
];

pub const CHAR_CODE: &[Line] = &[
    NeedCharacter(0),
    ComputeBy(5, ShiftRight, 0, 8),
    ComputeBy(5, ShiftLeft, 5, 2),
    Return(5),
];

/// The integers from 0 to 255 are those whose words are below 1024 as numbers without a sign.
pub const CODE_CHAR: &[Line] = &[
    NeedTag(0, INTEGER_BITS, INTEGER_CLASS),
    Set(6, 1024),
    NeedTest(LessUnsigned, 0, 6, 0, INTEGER_CLASS),
    ComputeBy(5, ShiftLeft, 0, 6),
    ComputeBy(5, Add, 5, 15),
    Return(5),
];

pub const STANDARD_INPUT: &[Line] = &[LoadFixed(5, INPUT_STREAM_AT), Return(5)];

pub const STANDARD_OUTPUT: &[Line] = &[LoadFixed(5, OUTPUT_STREAM_AT), Return(5)];

/// Whether the byte is a newline is 1 or 0, by which the difference of t and nil is multiplied.
pub const PUT_CHAR: &[Line] = &[
    NeedHeader(0, INPUT, 2, STREAM_CLASS),
    NeedCharacter(1),
    Load(7, 0, HEADER),
    Set(6, OUTPUT),
    NeedTest(Equal, 7, 6, 0, STREAM_CLASS),
    ComputeBy(5, ShiftRight, 1, 8),
    Put(5),
    ComputeBy(7, Subtract, 5, 10),
    ComputeBy(7, Arithmetic::LessUnsigned, 7, 1),
    LoadFixed(4, TRUE_AT),
    ComputeBy(4, Subtract, 4, NIL),
    Compute(4, Multiply, 4, 7),
    ComputeBy(4, Add, 4, NIL),
    StoreFixed(4, LINE_AT),
    Set(4, NIL),
    Return(4),
];

pub const IS_FRESH_LINE: &[Line] = &[LoadFixed(5, LINE_AT), Return(5)];

/// A byte that was looked at is taken first. What is read at the end, all ones, comes to -1 as an integer.
pub const GET_BYTE: &[Line] = &[
    LoadFixed(5, PEEKED_AT),
    Set(4, NIL),
    StoreFixed(4, PEEKED_AT),
    ReturnIf(Different, 5, 4, 5),
    Get(5),
    ComputeBy(5, ShiftLeft, 5, 2),
    Return(5),
];

pub const PEEK_BYTE: &[Line] = &[
    LoadFixed(5, PEEKED_AT),
    Set(4, NIL),
    ReturnIf(Different, 5, 4, 5),
    Get(5),
    ComputeBy(5, ShiftLeft, 5, 2),
    Set(4, 4294967292),
    ReturnIf(Equal, 5, 4, 5),
    StoreFixed(5, PEEKED_AT),
    Return(5),
];
