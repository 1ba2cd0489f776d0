// The code of strings.

use crate::line::Line;
use crate::line::Line::{
    Compute, ComputeBy, Copy, Fill, Load, NeedCharacter, NeedHeader, NeedIndex, NeedTag, NeedTest,
    Request, Return, Set, Store,
};
use crate::words::{INTEGER_BITS, INTEGER_CLASS, OBJECT, SECOND, STRING, STRING_CLASS, THIRD};
use mid_code::Arithmetic::{Add, Multiply, ShiftLeft, ShiftRight, Subtract};
use mid_code::Comparison::AtLeast;

/// All words are filled with four bytes; then the last one is stored again with those of its bytes alone that are of the string, and at last the
/// length, since in a string without bytes the last word is the one of the length.
pub const MAKE_STRING: &[Line] = &[
    NeedTag(0, INTEGER_BITS, INTEGER_CLASS),
    NeedCharacter(1),
    Set(6, 0),
    NeedTest(AtLeast, 0, 6, 0, INTEGER_CLASS),
    ComputeBy(5, Add, 0, 12),
    ComputeBy(5, ShiftRight, 5, 4),
    ComputeBy(4, Add, 5, 2),
    Request(3, 4),
    Set(4, STRING),
    Store(4, 3, 0),
    ComputeBy(4, ShiftRight, 1, 8),
    ComputeBy(4, Multiply, 4, 16843009),
    ComputeBy(5, ShiftLeft, 5, 2),
    Compute(5, Add, 5, 3),
    Copy(7, 3),
    Fill,
    ComputeBy(7, ShiftLeft, 0, 28),
    ComputeBy(7, ShiftRight, 7, 27),
    Set(6, 32),
    Compute(7, Subtract, 6, 7),
    Compute(7, ShiftRight, 4, 7),
    Store(7, 5, 4),
    Store(0, 3, 4),
    ComputeBy(3, Add, 3, OBJECT),
    Return(3),
];

pub const STRING_LENGTH: &[Line] = &[
    NeedHeader(0, STRING, 1, STRING_CLASS),
    Load(5, 0, SECOND),
    Return(5),
];

/// Of the word of an index the bits above 3 tell the word, and the bits 2 and 3 the byte in it.
pub const CHAR_AT: &[Line] = &[
    NeedHeader(0, STRING, 1, STRING_CLASS),
    NeedIndex(0, 1),
    ComputeBy(5, ShiftRight, 1, 4),
    ComputeBy(5, ShiftLeft, 5, 2),
    Compute(5, Add, 5, 0),
    Load(5, 5, THIRD),
    ComputeBy(4, ShiftLeft, 1, 28),
    ComputeBy(4, ShiftRight, 4, 27),
    Compute(5, ShiftRight, 5, 4),
    ComputeBy(5, ShiftLeft, 5, 24),
    ComputeBy(5, ShiftRight, 5, 16),
    ComputeBy(5, Add, 5, 15),
    Return(5),
];

/// The old byte is taken away where it stands in its word, and the new one added.
pub const SET_CHAR_AT: &[Line] = &[
    NeedCharacter(0),
    NeedHeader(1, STRING, 1, STRING_CLASS),
    NeedIndex(1, 2),
    ComputeBy(5, ShiftRight, 2, 4),
    ComputeBy(5, ShiftLeft, 5, 2),
    Compute(5, Add, 5, 1),
    Load(4, 5, THIRD),
    ComputeBy(3, ShiftLeft, 2, 28),
    ComputeBy(3, ShiftRight, 3, 27),
    Compute(7, ShiftRight, 4, 3),
    ComputeBy(7, ShiftLeft, 7, 24),
    ComputeBy(7, ShiftRight, 7, 24),
    Compute(7, ShiftLeft, 7, 3),
    Compute(4, Subtract, 4, 7),
    ComputeBy(7, ShiftRight, 0, 8),
    Compute(7, ShiftLeft, 7, 3),
    Compute(4, Add, 4, 7),
    Store(4, 5, THIRD),
    Return(0),
];
