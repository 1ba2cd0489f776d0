// The code of vectors.

use crate::line::Line;
use crate::line::Line::{
    Compute, ComputeBy, Copy, Fill, Load, NeedHeader, NeedIndex, NeedLength, Request, Return, Set,
    Store,
};
use crate::words::{OBJECT, SECOND, THIRD, VECTOR, VECTOR_CLASS};
use mid_code::Arithmetic::{Add, ShiftRight};

/// The word of a length is four times the length: so far does the last element stand from the first.
pub const MAKE_VECTOR: &[Line] = &[
    NeedLength,
    ComputeBy(5, ShiftRight, 0, 2),
    ComputeBy(5, Add, 5, 2),
    Request(3, 5),
    Set(4, VECTOR),
    Store(4, 3, 0),
    Store(0, 3, 4),
    Compute(5, Add, 0, 3),
    Copy(4, 1),
    Copy(7, 3),
    Fill,
    ComputeBy(3, Add, 3, OBJECT),
    Return(3),
];

pub const VECTOR_LENGTH: &[Line] = &[
    NeedHeader(0, VECTOR, 1, VECTOR_CLASS),
    Load(5, 0, SECOND),
    Return(5),
];

/// A negative index is greater than each length as a number without a sign.
pub const VECTOR_REF: &[Line] = &[
    NeedHeader(0, VECTOR, 1, VECTOR_CLASS),
    NeedIndex(0, 1),
    Compute(5, Add, 0, 1),
    Load(5, 5, THIRD),
    Return(5),
];

pub const SET_VECTOR_REF: &[Line] = &[
    NeedHeader(1, VECTOR, 1, VECTOR_CLASS),
    NeedIndex(1, 2),
    Compute(5, Add, 1, 2),
    Store(0, 5, THIRD),
    Return(0),
];
