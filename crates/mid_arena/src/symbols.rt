// The code of symbols.

use crate::line::Line;
use crate::line::Line::{
    Compute, ComputeBy, Copy, CopyWords, Load, LoadFixed, NeedSymbol, Request, Return, ReturnIf,
    Set, SetIf, Store, StoreFixed,
};
use crate::words::{
    FRESH, HEADER, NIL, NIL_NAME_AT, NO_NAME_AT, OBJECT, SECOND, SERIAL_AT, STRING,
};
use mid_code::Arithmetic::{Add, ShiftLeft, ShiftRight};
use mid_code::Comparison::{Different, Equal};

/// A name is copied from where it stands: in the symbol, or at a fixed address, where nil's stands, and one that is empty.
pub const SYMBOL_NAME: &[Line] = &[
    NeedSymbol(0),
    Copy(4, 0),
    Set(6, NIL),
    SetIf(Equal, 0, 6, 4, NIL_NAME_AT + OBJECT),
    Load(7, 4, HEADER),
    Set(6, FRESH),
    SetIf(Equal, 7, 6, 4, NO_NAME_AT + OBJECT),
    Load(1, 4, SECOND),
    ComputeBy(5, Add, 1, 12),
    ComputeBy(5, ShiftRight, 5, 4),
    ComputeBy(7, Add, 5, 2),
    Request(3, 7),
    Set(7, STRING),
    Store(7, 3, 0),
    Store(1, 3, 4),
    ComputeBy(5, ShiftLeft, 5, 2),
    Compute(5, Add, 5, 3),
    Copy(7, 3),
    CopyWords,
    ComputeBy(3, Add, 3, OBJECT),
    Return(3),
];

pub const SYMBOL_SERIAL: &[Line] = &[
    NeedSymbol(0),
    Set(5, NIL),
    ReturnIf(Equal, 0, 5, 5),
    Load(7, 0, HEADER),
    Set(6, FRESH),
    ReturnIf(Different, 7, 6, 5),
    Load(5, 0, SECOND),
    Return(5),
];

/// The serial that comes next is an integer of 29 bits: the highest bit of its word is cleared.
pub const GENSYM: &[Line] = &[
    Set(3, 2),
    Request(3, 3),
    Set(4, FRESH),
    Store(4, 3, 0),
    LoadFixed(4, SERIAL_AT),
    Store(4, 3, 4),
    ComputeBy(4, Add, 4, 4),
    ComputeBy(4, ShiftLeft, 4, 1),
    ComputeBy(4, ShiftRight, 4, 1),
    StoreFixed(4, SERIAL_AT),
    ComputeBy(3, Add, 3, OBJECT),
    Return(3),
];
