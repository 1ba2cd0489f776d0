// The names under which primitives are called.

ghost use Rattle.std.specs.Prelude.{◌≡◌};
ghost use Rattle.std.specs.List.{find, list_any};
ghost use Rattle.std.specs.Str.{bytes_eq};
ghost use Rattle.front_profile.specs.Primitives.{own_text, direct_texts, all_primitives, has_own_text, has_direct_text, has_name, primitive_called, is_own_name, is_direct_name};
ghost use Rattle.front_syntax.specs.Views.{texts};

use lang_meaning::Primitive;

/// The name that the primitive alone has.
fn own_text(primitive: Primitive) -> &'static [u8]
    ensures { result.now ≡ own_text primitive }
{
    match primitive {
        Primitive::Add => b"%add",
        Primitive::Subtract => b"%sub",
        Primitive::Multiply => b"%mul",
        Primitive::Divide => b"%div",
        Primitive::Modulo => b"%mod",
        Primitive::NumberEqual => b"%num=",
        Primitive::NumberNotEqual => b"%num/=",
        Primitive::NumberLess => b"%num<",
        Primitive::NumberAtMost => b"%num<=",
        Primitive::NumberGreater => b"%num>",
        Primitive::NumberAtLeast => b"%num>=",
        Primitive::Same => b"%same",
        Primitive::IsNull => b"%null",
        Primitive::IsCons => b"%consp",
        Primitive::IsInteger => b"%integerp",
        Primitive::IsSymbol => b"%symbolp",
        Primitive::IsCharacter => b"%characterp",
        Primitive::IsString => b"%stringp",
        Primitive::IsVector => b"%vectorp",
        Primitive::IsFunction => b"%functionp",
        Primitive::IsGeneric => b"%genericp",
        Primitive::Cons => b"%cons",
        Primitive::Car => b"%car",
        Primitive::Cdr => b"%cdr",
        Primitive::SetCar => b"%set-car",
        Primitive::SetCdr => b"%set-cdr",
        Primitive::MakeString => b"%make-string",
        Primitive::MakeVector => b"%make-vector",
        Primitive::StringLength => b"%string-length",
        Primitive::VectorLength => b"%vector-length",
        Primitive::CharAt => b"%char-at",
        Primitive::VectorRef => b"%vector-ref",
        Primitive::SetCharAt => b"%set-char-at",
        Primitive::SetVectorRef => b"%set-vector-ref",
        Primitive::CharCode => b"%char-code",
        Primitive::CodeChar => b"%code-char",
        Primitive::SymbolName => b"%symbol-name",
        Primitive::SymbolSerial => b"%symbol-serial",
        Primitive::Gensym => b"%gensym",
        Primitive::ClassOf => b"%class-of",
        Primitive::ClassName => b"%class-name",
        Primitive::IsSubclass => b"%subclass",
        Primitive::IsInstance => b"%instance",
        Primitive::Allocate => b"%allocate",
        Primitive::SlotCount => b"%slot-count",
        Primitive::SlotPlace => b"%slot-place",
        Primitive::SlotRef => b"%slot-ref",
        Primitive::SlotSet => b"%slot-set",
        Primitive::SlotBound => b"%slot-bound",
        Primitive::SlotInitargs => b"%slot-initargs",
        Primitive::SlotInitform => b"%slot-initform",
        Primitive::Continuable => b"%continuable",
        Primitive::StandardInput => b"%standard-input",
        Primitive::StandardOutput => b"%standard-output",
        Primitive::PutChar => b"%put-char",
        Primitive::IsFreshLine => b"%fresh",
        Primitive::GetByte => b"%get-byte",
        Primitive::PeekByte => b"%peek-byte",
    }
}

// The names of functions of the standard that are calls of it.
fn direct_texts(primitive: Primitive) -> &'static [&'static [u8]]
    ensures { texts result.now ≡ direct_texts primitive }
{
    match primitive {
        Primitive::Add => &[b"+"],
        Primitive::Subtract => &[b"-"],
        Primitive::Multiply => &[b"*"],
        Primitive::Divide => &[b"div"],
        Primitive::Modulo => &[b"mod"],
        Primitive::NumberEqual => &[b"="],
        Primitive::NumberNotEqual => &[b"/="],
        Primitive::NumberLess => &[b"<"],
        Primitive::NumberAtMost => &[b"<="],
        Primitive::NumberGreater => &[b">"],
        Primitive::NumberAtLeast => &[b">="],
        Primitive::Same => &[b"eq", b"eql"],
        Primitive::IsNull => &[b"not", b"null"],
        Primitive::IsCons => &[b"consp"],
        Primitive::IsInteger => &[b"integerp"],
        Primitive::IsSymbol => &[b"symbolp"],
        Primitive::IsCharacter => &[b"characterp"],
        Primitive::IsString => &[b"stringp"],
        Primitive::IsVector => &[b"general-vector-p"],
        Primitive::IsFunction => &[b"functionp"],
        Primitive::IsGeneric => &[b"generic-function-p"],
        Primitive::Cons => &[b"cons"],
        Primitive::Car => &[b"car"],
        Primitive::Cdr => &[b"cdr"],
        Primitive::SetCar => &[b"set-car"],
        Primitive::SetCdr => &[b"set-cdr"],
        Primitive::MakeString => &[],
        Primitive::MakeVector => &[],
        Primitive::StringLength => &[],
        Primitive::VectorLength => &[],
        Primitive::CharAt => &[],
        Primitive::VectorRef => &[],
        Primitive::SetCharAt => &[],
        Primitive::SetVectorRef => &[],
        Primitive::CharCode => &[],
        Primitive::CodeChar => &[],
        Primitive::SymbolName => &[],
        Primitive::SymbolSerial => &[],
        Primitive::Gensym => &[b"gensym"],
        Primitive::ClassOf => &[b"class-of"],
        Primitive::ClassName => &[],
        Primitive::IsSubclass => &[b"subclassp"],
        Primitive::IsInstance => &[b"instancep"],
        Primitive::Allocate => &[],
        Primitive::SlotCount => &[],
        Primitive::SlotPlace => &[],
        Primitive::SlotRef => &[],
        Primitive::SlotSet => &[],
        Primitive::SlotBound => &[],
        Primitive::SlotInitargs => &[],
        Primitive::SlotInitform => &[],
        Primitive::Continuable => &[b"condition-continuable"],
        Primitive::StandardInput => &[b"standard-input"],
        Primitive::StandardOutput => &[b"standard-output"],
        Primitive::PutChar => &[b"format-char"],
        Primitive::IsFreshLine => &[],
        Primitive::GetByte => &[],
        Primitive::PeekByte => &[],
    }
}

// All of them.
const PRIMITIVES: &[Primitive] = &[
    Primitive::Add,
    Primitive::Subtract,
    Primitive::Multiply,
    Primitive::Divide,
    Primitive::Modulo,
    Primitive::NumberEqual,
    Primitive::NumberNotEqual,
    Primitive::NumberLess,
    Primitive::NumberAtMost,
    Primitive::NumberGreater,
    Primitive::NumberAtLeast,
    Primitive::Same,
    Primitive::IsNull,
    Primitive::IsCons,
    Primitive::IsInteger,
    Primitive::IsSymbol,
    Primitive::IsCharacter,
    Primitive::IsString,
    Primitive::IsVector,
    Primitive::IsFunction,
    Primitive::IsGeneric,
    Primitive::Cons,
    Primitive::Car,
    Primitive::Cdr,
    Primitive::SetCar,
    Primitive::SetCdr,
    Primitive::MakeString,
    Primitive::MakeVector,
    Primitive::StringLength,
    Primitive::VectorLength,
    Primitive::CharAt,
    Primitive::VectorRef,
    Primitive::SetCharAt,
    Primitive::SetVectorRef,
    Primitive::CharCode,
    Primitive::CodeChar,
    Primitive::SymbolName,
    Primitive::SymbolSerial,
    Primitive::Gensym,
    Primitive::ClassOf,
    Primitive::ClassName,
    Primitive::IsSubclass,
    Primitive::IsInstance,
    Primitive::Allocate,
    Primitive::SlotCount,
    Primitive::SlotPlace,
    Primitive::SlotRef,
    Primitive::SlotSet,
    Primitive::SlotBound,
    Primitive::SlotInitargs,
    Primitive::SlotInitform,
    Primitive::Continuable,
    Primitive::StandardInput,
    Primitive::StandardOutput,
    Primitive::PutChar,
    Primitive::IsFreshLine,
    Primitive::GetByte,
    Primitive::PeekByte,
];

fn all_primitives() -> &'static [Primitive]
    ensures { result.now ≡ all_primitives }
{
    PRIMITIVES
}

/// Whether the text is among these.
pub(crate) fn is_among(text: &[u8], others: &[&[u8]]) -> bool
    ensures { result ≡ list_any (λ other. bytes_eq other text.now) (texts others.now) }
{
    let Some((first, rest)) = others.split_first() else {
        return false;
    };
    *first == text || is_among(text, rest)
}

fn has_direct_text(primitive: Primitive, text: &[u8]) -> bool
    ensures { result ≡ has_direct_text text.now primitive }
{
    is_among(text, direct_texts(primitive))
}

fn has_own_text(primitive: Primitive, text: &[u8]) -> bool
    ensures { result ≡ has_own_text text.now primitive }
{
    own_text(primitive) == text
}

fn first_named(primitives: &[Primitive], text: &[u8]) -> Option<Primitive>
    ensures { result ≡ find (has_name text.now) primitives.now }
{
    let Some((first, others)) = primitives.split_first() else {
        return None;
    };
    if has_own_text(*first, text) || has_direct_text(*first, text) {
        return Some(*first);
    }
    first_named(others, text)
}

/// The primitive that a call of that name with so many arguments is. Takes no memory.
pub fn primitive_called(text: &[u8], count: usize) -> Option<Primitive>
    ensures { result ≡ primitive_called text.now count }
{
    let primitive = first_named(all_primitives(), text)?;
    if count == primitive.arity() as usize {
        Some(primitive)
    } else {
        None
    }
}

fn some_own_name(primitives: &[Primitive], text: &[u8]) -> bool
    ensures { result ≡ list_any (has_own_text text.now) primitives.now }
{
    let Some((first, others)) = primitives.split_first() else {
        return false;
    };
    has_own_text(*first, text) || some_own_name(others, text)
}

/// Whether a primitive alone has that name.
pub(crate) fn is_own_name(text: &[u8]) -> bool
    ensures { result ≡ is_own_name text.now }
{
    some_own_name(all_primitives(), text)
}

fn some_direct_name(primitives: &[Primitive], text: &[u8]) -> bool
    ensures { result ≡ list_any (has_direct_text text.now) primitives.now }
{
    let Some((first, others)) = primitives.split_first() else {
        return false;
    };
    has_direct_text(*first, text) || some_direct_name(others, text)
}

/// Whether that is the name of a function whose calls are primitives.
pub(crate) fn is_direct_name(text: &[u8]) -> bool
    ensures { result ≡ is_direct_name text.now }
{
    some_direct_name(all_primitives(), text)
}
