// The primitives that a core form can name.

ghost use Rattle.std.specs.Prelude.{◌≡◌};
ghost use Rattle.lang_meaning.specs.Arity.{arity};

/// A primitive: what it gives stands with the meaning of the language.
#[derive(Clone, Copy)]
pub enum Primitive {
    /// The sum of two integers (ISO/IEC 13816:2007, 19.2).
    Add,
    /// The difference of two integers.
    Subtract,
    /// The product of two integers.
    Multiply,
    /// The quotient, rounded towards minus infinity.
    Divide,
    /// The remainder, with the divisor's sign.
    Modulo,
    /// Whether two integers are equal.
    NumberEqual,
    /// Whether two integers differ.
    NumberNotEqual,
    /// Whether the first integer is less than the second.
    NumberLess,
    /// Whether the first integer is at most the second.
    NumberAtMost,
    /// Whether the first integer is greater than the second.
    NumberGreater,
    /// Whether the first integer is at least the second.
    NumberAtLeast,
    /// Whether two values are the same (ISO/IEC 13816:2007, 13.3, `eql`).
    Same,
    /// Whether a value is nil.
    IsNull,
    /// Whether a value is a cons.
    IsCons,
    /// Whether a value is an integer.
    IsInteger,
    /// Whether a value is a symbol; nil is one.
    IsSymbol,
    /// Whether a value is a character.
    IsCharacter,
    /// Whether a value is a string.
    IsString,
    /// Whether a value is a general vector.
    IsVector,
    /// Whether a value is a function; a generic function is one.
    IsFunction,
    /// Whether a value is a generic function.
    IsGeneric,
    /// A new cons (ISO/IEC 13816:2007, 21.1).
    Cons,
    /// The first part of a cons.
    Car,
    /// The second part of a cons.
    Cdr,
    /// Sets the first part of a cons: value, cons.
    SetCar,
    /// Sets the second part of a cons: value, cons.
    SetCdr,
    /// A new string: length, character (ISO/IEC 13816:2007, 24.1).
    MakeString,
    /// A new vector: length, element (ISO/IEC 13816:2007, 23.1).
    MakeVector,
    /// The length of a string.
    StringLength,
    /// The length of a vector.
    VectorLength,
    /// A character of a string: string, index.
    CharAt,
    /// An element of a vector: vector, index.
    VectorRef,
    /// Sets a character: value, string, index.
    SetCharAt,
    /// Sets an element: value, vector, index.
    SetVectorRef,
    /// The byte of a character.
    CharCode,
    /// The character of a byte.
    CodeChar,
    /// A new string with a symbol's name, empty for a fresh symbol (ISO/IEC 13816:2007, 18).
    SymbolName,
    /// The serial of a fresh symbol modulo 536870912; nil for a named one.
    SymbolSerial,
    /// A new fresh symbol (ISO/IEC 13816:2007, 18.4).
    Gensym,
    /// The class of a value (ISO/IEC 13816:2007, 15.5).
    ClassOf,
    /// The symbol of a class's name.
    ClassName,
    /// Whether the first class is the second or below it.
    IsSubclass,
    /// Whether an object is of a class: object, class.
    IsInstance,
    /// A new instance of a class, with unbound slots (ISO/IEC 13816:2007, 15.4).
    Allocate,
    /// The number of slots of an instance.
    SlotCount,
    /// The place of a slot: instance, name.
    SlotPlace,
    /// The value of a slot: instance, place.
    SlotRef,
    /// Sets a slot: value, instance, place.
    SlotSet,
    /// Whether a slot has a value: instance, place.
    SlotBound,
    /// The list of a slot's initargs: instance, place.
    SlotInitargs,
    /// The function of a slot's initform, or nil: instance, place.
    SlotInitform,
    /// A condition's mark (ISO/IEC 13816:2007, 29.2, `condition-continuable`).
    Continuable,
    /// The standard input (ISO/IEC 13816:2007, 26.1).
    StandardInput,
    /// The standard output (ISO/IEC 13816:2007, 26.1).
    StandardOutput,
    /// Puts a character on a stream: stream, character (ISO/IEC 13816:2007, 27).
    PutChar,
    /// Whether nothing was put, or the last byte put is a newline.
    IsFreshLine,
    /// The next byte of the input, taken; -1 at the end.
    GetByte,
    /// The next byte of the input, left; -1 at the end.
    PeekByte,
}

impl Primitive {
    /// How many arguments it takes. Takes no memory.
    pub fn arity(self) -> u32
        ensures { result ≡ arity self }
    {
        match self {
            Primitive::Add => 2,
            Primitive::Subtract => 2,
            Primitive::Multiply => 2,
            Primitive::Divide => 2,
            Primitive::Modulo => 2,
            Primitive::NumberEqual => 2,
            Primitive::NumberNotEqual => 2,
            Primitive::NumberLess => 2,
            Primitive::NumberAtMost => 2,
            Primitive::NumberGreater => 2,
            Primitive::NumberAtLeast => 2,
            Primitive::Same => 2,
            Primitive::IsNull => 1,
            Primitive::IsCons => 1,
            Primitive::IsInteger => 1,
            Primitive::IsSymbol => 1,
            Primitive::IsCharacter => 1,
            Primitive::IsString => 1,
            Primitive::IsVector => 1,
            Primitive::IsFunction => 1,
            Primitive::IsGeneric => 1,
            Primitive::Cons => 2,
            Primitive::Car => 1,
            Primitive::Cdr => 1,
            Primitive::SetCar => 2,
            Primitive::SetCdr => 2,
            Primitive::MakeString => 2,
            Primitive::MakeVector => 2,
            Primitive::StringLength => 1,
            Primitive::VectorLength => 1,
            Primitive::CharAt => 2,
            Primitive::VectorRef => 2,
            Primitive::SetCharAt => 3,
            Primitive::SetVectorRef => 3,
            Primitive::CharCode => 1,
            Primitive::CodeChar => 1,
            Primitive::SymbolName => 1,
            Primitive::SymbolSerial => 1,
            Primitive::Gensym => 0,
            Primitive::ClassOf => 1,
            Primitive::ClassName => 1,
            Primitive::IsSubclass => 2,
            Primitive::IsInstance => 2,
            Primitive::Allocate => 1,
            Primitive::SlotCount => 1,
            Primitive::SlotPlace => 2,
            Primitive::SlotRef => 2,
            Primitive::SlotSet => 3,
            Primitive::SlotBound => 2,
            Primitive::SlotInitargs => 2,
            Primitive::SlotInitform => 2,
            Primitive::Continuable => 1,
            Primitive::StandardInput => 0,
            Primitive::StandardOutput => 0,
            Primitive::PutChar => 2,
            Primitive::IsFreshLine => 0,
            Primitive::GetByte => 0,
            Primitive::PeekByte => 0,
        }
    }
}
