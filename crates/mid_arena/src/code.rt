// The lines of each primitive.

ghost use Rattle.std.specs.Prelude.{◌≡◌};
ghost use Rattle.mid_arena.specs.Codes.{lines_of};

use crate::line::Line;
use crate::{classes, numbers, strings, symbols, values, vectors};
use lang_meaning::Primitive;

/// The lines of a primitive.
pub fn lines(which: Primitive) -> &'static [Line]
    ensures { result.now ≡ lines_of which }
{
    match which {
        Primitive::Add => numbers::ADD,
        Primitive::Subtract => numbers::SUBTRACT,
        Primitive::Multiply => numbers::MULTIPLY,
        Primitive::Divide => numbers::DIVIDE,
        Primitive::Modulo => numbers::MODULO,
        Primitive::NumberEqual => numbers::NUMBER_EQUAL,
        Primitive::NumberNotEqual => numbers::NUMBER_NOT_EQUAL,
        Primitive::NumberLess => numbers::NUMBER_LESS,
        Primitive::NumberAtMost => numbers::NUMBER_AT_MOST,
        Primitive::NumberGreater => numbers::NUMBER_GREATER,
        Primitive::NumberAtLeast => numbers::NUMBER_AT_LEAST,
        Primitive::Same => values::SAME,
        Primitive::IsNull => values::IS_NULL,
        Primitive::IsCons => values::IS_CONS,
        Primitive::IsInteger => values::IS_INTEGER,
        Primitive::IsSymbol => values::IS_SYMBOL,
        Primitive::IsCharacter => values::IS_CHARACTER,
        Primitive::IsString => values::IS_STRING,
        Primitive::IsVector => values::IS_VECTOR,
        Primitive::IsFunction => values::IS_FUNCTION,
        Primitive::IsGeneric => values::IS_GENERIC,
        Primitive::Cons => values::MAKE_CONS,
        Primitive::Car => values::TAKE_CAR,
        Primitive::Cdr => values::TAKE_CDR,
        Primitive::SetCar => values::SET_CAR,
        Primitive::SetCdr => values::SET_CDR,
        Primitive::MakeString => strings::MAKE_STRING,
        Primitive::MakeVector => vectors::MAKE_VECTOR,
        Primitive::StringLength => strings::STRING_LENGTH,
        Primitive::VectorLength => vectors::VECTOR_LENGTH,
        Primitive::CharAt => strings::CHAR_AT,
        Primitive::VectorRef => vectors::VECTOR_REF,
        Primitive::SetCharAt => strings::SET_CHAR_AT,
        Primitive::SetVectorRef => vectors::SET_VECTOR_REF,
        Primitive::CharCode => values::CHAR_CODE,
        Primitive::CodeChar => values::CODE_CHAR,
        Primitive::SymbolName => symbols::SYMBOL_NAME,
        Primitive::SymbolSerial => symbols::SYMBOL_SERIAL,
        Primitive::Gensym => symbols::GENSYM,
        Primitive::ClassOf => classes::CLASS_OF,
        Primitive::ClassName => classes::CLASS_NAME,
        Primitive::IsSubclass => classes::IS_SUBCLASS,
        Primitive::IsInstance => classes::IS_INSTANCE,
        Primitive::Allocate => classes::ALLOCATE,
        Primitive::SlotCount => classes::SLOT_COUNT,
        Primitive::SlotPlace => classes::SLOT_PLACE,
        Primitive::SlotRef => classes::SLOT_REF,
        Primitive::SlotSet => classes::SLOT_SET,
        Primitive::SlotBound => classes::SLOT_BOUND,
        Primitive::SlotInitargs => classes::SLOT_INITARGS,
        Primitive::SlotInitform => classes::SLOT_INITFORM,
        Primitive::Continuable => classes::CONTINUABLE,
        Primitive::StandardInput => values::STANDARD_INPUT,
        Primitive::StandardOutput => values::STANDARD_OUTPUT,
        Primitive::PutChar => values::PUT_CHAR,
        Primitive::IsFreshLine => values::IS_FRESH_LINE,
        Primitive::GetByte => values::GET_BYTE,
        Primitive::PeekByte => values::PEEK_BYTE,
    }
}
