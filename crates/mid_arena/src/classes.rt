// The code of classes and instances.

use crate::line::Line;
use crate::line::Line::{
    ClassWord, Compute, ComputeBy, Copy, Fill, Load, NeedHeader, NeedInstance, NeedPlace,
    NeedSymbol, NeedTest, Request, Return, Says, SearchClass, SearchSlot, Set, Signal,
    SignalUnless, SlotWord, Store,
};
use crate::words::{
    CLASS, HEADER, NIL, OBJECT, PROGRAM_ERROR, SECOND, SERIOUS_CONDITION, STANDARD_CLASS,
    STANDARD_OBJECT, THIRD, UNBOUND,
};
use mid_code::Arithmetic::{Add, LessUnsigned, Multiply, ShiftLeft, ShiftRight, Subtract};
use mid_code::Comparison::Different;

/// Offsets from the word of a class: whether instances can be made, whether they are conditions, how many classes its precedence list has, how
/// many slots they have; and from where the precedence list begins, less the tag.
const IS_MADE: i32 = 10;

const IS_CONDITION: i32 = 14;

const ABOVE: i32 = 18;

const SLOTS: i32 = 22;

const LIST: u32 = 26;

pub const CLASS_OF: &[Line] = &[ClassWord(2, 0), Return(2)];

pub const CLASS_NAME: &[Line] = &[
    NeedHeader(0, CLASS, 1, STANDARD_CLASS),
    Load(5, 0, THIRD),
    Return(5),
];

pub const IS_SUBCLASS: &[Line] = &[
    NeedHeader(0, CLASS, 1, STANDARD_CLASS),
    NeedHeader(1, CLASS, 1, STANDARD_CLASS),
    Load(4, 1, SECOND),
    Load(3, 0, ABOVE),
    ComputeBy(5, Add, 0, LIST),
    Compute(3, Add, 3, 5),
    SearchClass,
    Set(5, NIL),
    Return(5),
];

pub const IS_INSTANCE: &[Line] = &[
    NeedHeader(1, CLASS, 1, STANDARD_CLASS),
    ClassWord(2, 0),
    Load(4, 1, SECOND),
    Load(3, 2, ABOVE),
    ComputeBy(5, Add, 2, LIST),
    Compute(3, Add, 3, 5),
    SearchClass,
    Set(5, NIL),
    Return(5),
];

/// A condition has one word more. Nil is stored in its place first: where there is no mark, that word is the last slot or the class, which is stored
/// later.
pub const ALLOCATE: &[Line] = &[
    NeedHeader(0, CLASS, 1, STANDARD_CLASS),
    Load(4, 0, IS_MADE),
    Set(6, NIL),
    SignalUnless(Different, 4, 6, PROGRAM_ERROR),
    Load(4, 0, IS_CONDITION),
    ComputeBy(4, Subtract, 4, NIL),
    Set(6, 0),
    Compute(4, LessUnsigned, 6, 4),
    Load(5, 0, SLOTS),
    ComputeBy(3, ShiftRight, 5, 2),
    Compute(3, Add, 3, 4),
    ComputeBy(3, Add, 3, 2),
    Request(3, 3),
    ComputeBy(4, ShiftLeft, 4, 2),
    Compute(4, Add, 4, 5),
    Compute(4, Add, 4, 3),
    Set(6, NIL),
    Store(6, 4, 4),
    ComputeBy(7, ShiftLeft, 5, 2),
    ComputeBy(7, Add, 7, 3),
    Store(7, 3, 0),
    Store(0, 3, 4),
    Compute(5, Add, 5, 3),
    Copy(7, 3),
    Set(4, UNBOUND),
    Fill,
    ComputeBy(3, Add, 3, OBJECT),
    Return(3),
];

pub const SLOT_COUNT: &[Line] = &[
    NeedInstance(0, STANDARD_OBJECT),
    Load(5, 0, HEADER),
    ComputeBy(5, ShiftRight, 5, 4),
    ComputeBy(5, ShiftLeft, 5, 2),
    Return(5),
];

pub const SLOT_PLACE: &[Line] = &[
    NeedInstance(0, STANDARD_OBJECT),
    NeedSymbol(1),
    Load(4, 0, SECOND),
    Load(5, 4, ABOVE),
    Compute(5, Add, 5, 4),
    ComputeBy(5, Add, 5, LIST),
    Load(7, 4, SLOTS),
    ComputeBy(7, Multiply, 7, 3),
    Compute(7, Add, 7, 5),
    Set(3, 0),
    SearchSlot,
    Signal(PROGRAM_ERROR),
];

pub const SLOT_REF: &[Line] = &[
    NeedPlace(0, 1),
    Compute(5, Add, 0, 1),
    Load(5, 5, THIRD),
    Set(6, UNBOUND),
    SignalUnless(Different, 5, 6, PROGRAM_ERROR),
    Return(5),
];

pub const SLOT_SET: &[Line] = &[
    NeedPlace(1, 2),
    Compute(5, Add, 1, 2),
    Store(0, 5, THIRD),
    Return(0),
];

pub const SLOT_BOUND: &[Line] = &[
    NeedPlace(0, 1),
    Compute(5, Add, 0, 1),
    Load(4, 5, THIRD),
    Set(6, UNBOUND),
    Says(Different, 4, 6),
];

/// The three words of a slot in its class stand from 28 behind the class on, behind the precedence list.
pub const SLOT_INITARGS: &[Line] = &[NeedPlace(0, 1), SlotWord(30)];

pub const SLOT_INITFORM: &[Line] = &[NeedPlace(0, 1), SlotWord(34)];

/// The mark of a condition stands behind its slots.
pub const CONTINUABLE: &[Line] = &[
    NeedInstance(0, SERIOUS_CONDITION),
    Load(4, 0, SECOND),
    Load(5, 4, IS_CONDITION),
    Set(6, NIL),
    NeedTest(Different, 5, 6, 0, SERIOUS_CONDITION),
    Load(7, 0, HEADER),
    ComputeBy(7, ShiftRight, 7, 4),
    ComputeBy(7, ShiftLeft, 7, 2),
    Compute(7, Add, 7, 0),
    Load(5, 7, THIRD),
    Return(5),
];
