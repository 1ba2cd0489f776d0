// The number of a primitive, and which way of applying it is quick.

ghost use Rattle.std.specs.Prelude.{◌≡◌};
ghost use Rattle.lang_meaning.specs.model.ShapeCode.{primitive_number};
ghost use Rattle.back_leaves.specs.Quick.{quick_of};

use crate::quick::{Comparing, Order, Pair, Quick};
use lang_meaning::Primitive;
use mid_code::Comparison;

/// The number of a primitive.
pub fn primitive_number(which: Primitive) -> usize
    ensures { result ≡ primitive_number which }
{
    match which {
        Primitive::Add => 0,
        Primitive::Subtract => 1,
        Primitive::Multiply => 2,
        Primitive::Divide => 3,
        Primitive::Modulo => 4,
        Primitive::NumberEqual => 5,
        Primitive::NumberNotEqual => 6,
        Primitive::NumberLess => 7,
        Primitive::NumberAtMost => 8,
        Primitive::NumberGreater => 9,
        Primitive::NumberAtLeast => 10,
        Primitive::Same => 11,
        Primitive::IsNull => 12,
        Primitive::IsCons => 13,
        Primitive::IsInteger => 14,
        Primitive::IsSymbol => 15,
        Primitive::IsCharacter => 16,
        Primitive::IsString => 17,
        Primitive::IsVector => 18,
        Primitive::IsFunction => 19,
        Primitive::IsGeneric => 20,
        Primitive::Cons => 21,
        Primitive::Car => 22,
        Primitive::Cdr => 23,
        Primitive::SetCar => 24,
        Primitive::SetCdr => 25,
        Primitive::MakeString => 26,
        Primitive::MakeVector => 27,
        Primitive::StringLength => 28,
        Primitive::VectorLength => 29,
        Primitive::CharAt => 30,
        Primitive::VectorRef => 31,
        Primitive::SetCharAt => 32,
        Primitive::SetVectorRef => 33,
        Primitive::CharCode => 34,
        Primitive::CodeChar => 35,
        Primitive::SymbolName => 36,
        Primitive::SymbolSerial => 37,
        Primitive::Gensym => 38,
        Primitive::ClassOf => 39,
        Primitive::ClassName => 40,
        Primitive::IsSubclass => 41,
        Primitive::IsInstance => 42,
        Primitive::Allocate => 43,
        Primitive::SlotCount => 44,
        Primitive::SlotPlace => 45,
        Primitive::SlotRef => 46,
        Primitive::SlotSet => 47,
        Primitive::SlotBound => 48,
        Primitive::SlotInitargs => 49,
        Primitive::SlotInitform => 50,
        Primitive::Continuable => 51,
        Primitive::StandardInput => 52,
        Primitive::StandardOutput => 53,
        Primitive::PutChar => 54,
        Primitive::IsFreshLine => 55,
        Primitive::GetByte => 56,
        Primitive::PeekByte => 57,
    }
}

/// The quick way to apply a primitive.
pub fn quick_of(which: Primitive) -> Quick
    ensures { result ≡ quick_of which }
{
    match which {
        Primitive::Add => Quick::Sum,
        Primitive::Subtract => Quick::Difference,
        Primitive::Multiply => Quick::ByProcedure,
        Primitive::Divide => Quick::ByProcedure,
        Primitive::Modulo => Quick::ByProcedure,
        Primitive::NumberEqual => Quick::Compares(Comparing {
            how: Comparison::Equal,
            order: Order::Straight,
            so: Pair {
                first: 0,
                second: 0,
            },
            other: Pair {
                first: 0,
                second: 1,
            },
        }),
        Primitive::NumberNotEqual => Quick::Compares(Comparing {
            how: Comparison::Different,
            order: Order::Straight,
            so: Pair {
                first: 0,
                second: 1,
            },
            other: Pair {
                first: 0,
                second: 0,
            },
        }),
        Primitive::NumberLess => Quick::Compares(Comparing {
            how: Comparison::Less,
            order: Order::Straight,
            so: Pair {
                first: 0,
                second: 1,
            },
            other: Pair {
                first: 1,
                second: 0,
            },
        }),
        Primitive::NumberAtMost => Quick::Compares(Comparing {
            how: Comparison::AtLeast,
            order: Order::Swapped,
            so: Pair {
                first: 0,
                second: 1,
            },
            other: Pair {
                first: 1,
                second: 0,
            },
        }),
        Primitive::NumberGreater => Quick::Compares(Comparing {
            how: Comparison::Less,
            order: Order::Swapped,
            so: Pair {
                first: 1,
                second: 0,
            },
            other: Pair {
                first: 0,
                second: 1,
            },
        }),
        Primitive::NumberAtLeast => Quick::Compares(Comparing {
            how: Comparison::AtLeast,
            order: Order::Straight,
            so: Pair {
                first: 1,
                second: 0,
            },
            other: Pair {
                first: 0,
                second: 1,
            },
        }),
        Primitive::Same => Quick::Same,
        Primitive::IsNull => Quick::IsNull,
        Primitive::IsCons => Quick::HasTag(1),
        Primitive::IsInteger => Quick::HasTag(0),
        Primitive::IsSymbol => Quick::ByProcedure,
        Primitive::IsCharacter => Quick::ByProcedure,
        Primitive::IsString => Quick::ByProcedure,
        Primitive::IsVector => Quick::ByProcedure,
        Primitive::IsFunction => Quick::ByProcedure,
        Primitive::IsGeneric => Quick::ByProcedure,
        Primitive::Cons => Quick::Cons,
        Primitive::Car => Quick::Car,
        Primitive::Cdr => Quick::Cdr,
        Primitive::SetCar => Quick::ByProcedure,
        Primitive::SetCdr => Quick::ByProcedure,
        Primitive::MakeString => Quick::ByProcedure,
        Primitive::MakeVector => Quick::ByProcedure,
        Primitive::StringLength => Quick::ByProcedure,
        Primitive::VectorLength => Quick::ByProcedure,
        Primitive::CharAt => Quick::ByProcedure,
        Primitive::VectorRef => Quick::Element,
        Primitive::SetCharAt => Quick::ByProcedure,
        Primitive::SetVectorRef => Quick::ByProcedure,
        Primitive::CharCode => Quick::ByProcedure,
        Primitive::CodeChar => Quick::ByProcedure,
        Primitive::SymbolName => Quick::ByProcedure,
        Primitive::SymbolSerial => Quick::ByProcedure,
        Primitive::Gensym => Quick::ByProcedure,
        Primitive::ClassOf => Quick::ByProcedure,
        Primitive::ClassName => Quick::ByProcedure,
        Primitive::IsSubclass => Quick::ByProcedure,
        Primitive::IsInstance => Quick::ByProcedure,
        Primitive::Allocate => Quick::ByProcedure,
        Primitive::SlotCount => Quick::ByProcedure,
        Primitive::SlotPlace => Quick::ByProcedure,
        Primitive::SlotRef => Quick::ByProcedure,
        Primitive::SlotSet => Quick::ByProcedure,
        Primitive::SlotBound => Quick::ByProcedure,
        Primitive::SlotInitargs => Quick::ByProcedure,
        Primitive::SlotInitform => Quick::ByProcedure,
        Primitive::Continuable => Quick::ByProcedure,
        Primitive::StandardInput => Quick::ByProcedure,
        Primitive::StandardOutput => Quick::ByProcedure,
        Primitive::PutChar => Quick::ByProcedure,
        Primitive::IsFreshLine => Quick::ByProcedure,
        Primitive::GetByte => Quick::ByProcedure,
        Primitive::PeekByte => Quick::ByProcedure,
    }
}
