// The code of arithmetic and of comparisons.

use crate::line::Line;
use crate::line::Line::{Compute, ComputeBy, NeedIntegers, Return, Says, Set, SignalUnless};
use crate::words::{DIVISION_BY_ZERO, INTEGER_OVERFLOW};
use mid_code::Arithmetic;
use mid_code::Arithmetic::{
    Add, Divide, Multiply, MultiplyHigh, Remainder, ShiftLeft, ShiftRightSigned, Subtract,
};
use mid_code::Comparison::{AtLeast, Different, Equal, Less};

/// A sum is out of range exactly where the second number is negative, or the sum is less than the first, and not both.
pub const ADD: &[Line] = &[
    NeedIntegers,
    Compute(3, Add, 0, 1),
    Set(6, 0),
    Compute(4, Arithmetic::Less, 1, 6),
    Compute(5, Arithmetic::Less, 3, 0),
    SignalUnless(Equal, 4, 5, INTEGER_OVERFLOW),
    Return(3),
];

/// A difference is out of range exactly where the second number is negative, or the first is less than the difference, and not both.
pub const SUBTRACT: &[Line] = &[
    NeedIntegers,
    Compute(3, Subtract, 0, 1),
    Set(6, 0),
    Compute(4, Arithmetic::Less, 1, 6),
    Compute(5, Arithmetic::Less, 0, 3),
    SignalUnless(Equal, 4, 5, INTEGER_OVERFLOW),
    Return(3),
];

/// A product is in range exactly where its upper word is all copies of the sign of its lower word.
pub const MULTIPLY: &[Line] = &[
    NeedIntegers,
    ComputeBy(3, ShiftRightSigned, 0, 2),
    Compute(4, MultiplyHigh, 3, 1),
    Compute(3, Multiply, 3, 1),
    ComputeBy(5, ShiftRightSigned, 3, 31),
    SignalUnless(Equal, 4, 5, INTEGER_OVERFLOW),
    Return(3),
];

/// The quotient is rounded towards zero, and is one too great where there is a remainder whose sign is not the divisor's. Only -2^29 by -1
/// has a quotient out of range, 2^29.
pub const DIVIDE: &[Line] = &[
    NeedIntegers,
    Set(6, 0),
    SignalUnless(Different, 1, 6, DIVISION_BY_ZERO),
    Compute(3, Divide, 0, 1),
    Compute(4, Remainder, 0, 1),
    Compute(5, MultiplyHigh, 4, 1),
    Compute(5, Arithmetic::Less, 5, 6),
    Compute(3, Subtract, 3, 5),
    Set(6, 536870912),
    SignalUnless(Different, 3, 6, INTEGER_OVERFLOW),
    ComputeBy(3, ShiftLeft, 3, 2),
    Return(3),
];

/// The divisor is added to a remainder whose sign is not the divisor's.
pub const MODULO: &[Line] = &[
    NeedIntegers,
    Set(6, 0),
    SignalUnless(Different, 1, 6, DIVISION_BY_ZERO),
    Compute(4, Remainder, 0, 1),
    Compute(5, MultiplyHigh, 4, 1),
    Compute(5, Arithmetic::Less, 5, 6),
    Compute(5, Multiply, 5, 1),
    Compute(4, Add, 4, 5),
    Return(4),
];

pub const NUMBER_EQUAL: &[Line] = &[NeedIntegers, Says(Equal, 0, 1)];

pub const NUMBER_NOT_EQUAL: &[Line] = &[NeedIntegers, Says(Different, 0, 1)];

pub const NUMBER_LESS: &[Line] = &[NeedIntegers, Says(Less, 0, 1)];

pub const NUMBER_AT_MOST: &[Line] = &[NeedIntegers, Says(AtLeast, 1, 0)];

pub const NUMBER_GREATER: &[Line] = &[NeedIntegers, Says(Less, 1, 0)];

pub const NUMBER_AT_LEAST: &[Line] = &[NeedIntegers, Says(AtLeast, 0, 1)];
