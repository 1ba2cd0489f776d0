// Groups of primitives that are computed in the same way.

ghost use Rattle.std.specs.Prelude.{◌≡◌};
ghost use Rattle.eval_primitives.specs.Groups.{primitive_of};

use lang_meaning::Primitive;

/// Arithmetic on two integers.
#[derive(Clone, Copy)]
pub enum Arithmetic {
    Add,
    Subtract,
    Multiply,
    Divide,
    Modulo,
}

/// Comparisons of two integers.
#[derive(Clone, Copy)]
pub enum Comparison {
    Equal,
    NotEqual,
    Less,
    AtMost,
    Greater,
    AtLeast,
}

/// What a value is.
#[derive(Clone, Copy)]
pub enum KindTest {
    Null,
    Integer,
    Character,
    Symbol,
    Cons,
    String,
    Vector,
    Function,
    Generic,
}

/// Parts of one value.
#[derive(Clone, Copy)]
pub enum PartAccess {
    Car,
    Cdr,
    CharCode,
    CodeChar,
    SymbolSerial,
}

/// How many elements strings, vectors and instances have.
#[derive(Clone, Copy)]
pub enum Length {
    String,
    Vector,
    Slots,
}

/// Elements of strings, vectors and instances.
#[derive(Clone, Copy)]
pub enum Element {
    CharAt,
    VectorRef,
    SlotRef,
    SlotBound,
}

/// What sets an element.
#[derive(Clone, Copy)]
pub enum ElementSet {
    CharAt,
    VectorRef,
    Slot,
}

/// What searches from the front of a list on.
#[derive(Clone, Copy)]
pub enum Search {
    IsSubclass,
    IsInstance,
    SlotPlace,
}

/// Primitives of one argument.
#[derive(Clone, Copy)]
pub enum Unary {
    Is(KindTest),
    Part(PartAccess),
    Length(Length),
    ClassOf,
    ClassName,
    Continuable,
    SymbolName,
    Allocate,
}

/// Primitives of two arguments.
#[derive(Clone, Copy)]
pub enum Binary {
    Arithmetic(Arithmetic),
    Comparison(Comparison),
    Same,
    Element(Element),
    SlotInitargs,
    SlotInitform,
    SetCar,
    SetCdr,
    Cons,
    MakeString,
    MakeVector,
    Search(Search),
}

/// Primitives without an argument.
#[derive(Clone, Copy)]
pub enum Nullary {
    Gensym,
    StandardInput,
    StandardOutput,
}

/// Primitives that read and write streams.
#[derive(Clone, Copy)]
pub enum Stream {
    PutChar,
    IsFreshLine,
    GetByte,
    PeekByte,
}

/// A primitive, by its group.
#[derive(Clone, Copy)]
pub enum Group {
    Zero(Nullary),
    One(Unary),
    Two(Binary),
    Three(ElementSet),
    Stream(Stream),
}

/// The group of a primitive.
pub fn group_of(which: Primitive) -> Group
    ensures { primitive_of result ≡ which }
{
    match which {
        Primitive::Add => Group::Two(Binary::Arithmetic(Arithmetic::Add)),
        Primitive::Subtract => Group::Two(Binary::Arithmetic(Arithmetic::Subtract)),
        Primitive::Multiply => Group::Two(Binary::Arithmetic(Arithmetic::Multiply)),
        Primitive::Divide => Group::Two(Binary::Arithmetic(Arithmetic::Divide)),
        Primitive::Modulo => Group::Two(Binary::Arithmetic(Arithmetic::Modulo)),
        Primitive::NumberEqual => Group::Two(Binary::Comparison(Comparison::Equal)),
        Primitive::NumberNotEqual => Group::Two(Binary::Comparison(Comparison::NotEqual)),
        Primitive::NumberLess => Group::Two(Binary::Comparison(Comparison::Less)),
        Primitive::NumberAtMost => Group::Two(Binary::Comparison(Comparison::AtMost)),
        Primitive::NumberGreater => Group::Two(Binary::Comparison(Comparison::Greater)),
        Primitive::NumberAtLeast => Group::Two(Binary::Comparison(Comparison::AtLeast)),
        Primitive::Same => Group::Two(Binary::Same),
        Primitive::IsNull => Group::One(Unary::Is(KindTest::Null)),
        Primitive::IsCons => Group::One(Unary::Is(KindTest::Cons)),
        Primitive::IsInteger => Group::One(Unary::Is(KindTest::Integer)),
        Primitive::IsSymbol => Group::One(Unary::Is(KindTest::Symbol)),
        Primitive::IsCharacter => Group::One(Unary::Is(KindTest::Character)),
        Primitive::IsString => Group::One(Unary::Is(KindTest::String)),
        Primitive::IsVector => Group::One(Unary::Is(KindTest::Vector)),
        Primitive::IsFunction => Group::One(Unary::Is(KindTest::Function)),
        Primitive::IsGeneric => Group::One(Unary::Is(KindTest::Generic)),
        Primitive::Cons => Group::Two(Binary::Cons),
        Primitive::Car => Group::One(Unary::Part(PartAccess::Car)),
        Primitive::Cdr => Group::One(Unary::Part(PartAccess::Cdr)),
        Primitive::SetCar => Group::Two(Binary::SetCar),
        Primitive::SetCdr => Group::Two(Binary::SetCdr),
        Primitive::MakeString => Group::Two(Binary::MakeString),
        Primitive::MakeVector => Group::Two(Binary::MakeVector),
        Primitive::StringLength => Group::One(Unary::Length(Length::String)),
        Primitive::VectorLength => Group::One(Unary::Length(Length::Vector)),
        Primitive::CharAt => Group::Two(Binary::Element(Element::CharAt)),
        Primitive::VectorRef => Group::Two(Binary::Element(Element::VectorRef)),
        Primitive::SetCharAt => Group::Three(ElementSet::CharAt),
        Primitive::SetVectorRef => Group::Three(ElementSet::VectorRef),
        Primitive::CharCode => Group::One(Unary::Part(PartAccess::CharCode)),
        Primitive::CodeChar => Group::One(Unary::Part(PartAccess::CodeChar)),
        Primitive::SymbolName => Group::One(Unary::SymbolName),
        Primitive::SymbolSerial => Group::One(Unary::Part(PartAccess::SymbolSerial)),
        Primitive::Gensym => Group::Zero(Nullary::Gensym),
        Primitive::ClassOf => Group::One(Unary::ClassOf),
        Primitive::ClassName => Group::One(Unary::ClassName),
        Primitive::IsSubclass => Group::Two(Binary::Search(Search::IsSubclass)),
        Primitive::IsInstance => Group::Two(Binary::Search(Search::IsInstance)),
        Primitive::Allocate => Group::One(Unary::Allocate),
        Primitive::SlotCount => Group::One(Unary::Length(Length::Slots)),
        Primitive::SlotPlace => Group::Two(Binary::Search(Search::SlotPlace)),
        Primitive::SlotRef => Group::Two(Binary::Element(Element::SlotRef)),
        Primitive::SlotSet => Group::Three(ElementSet::Slot),
        Primitive::SlotBound => Group::Two(Binary::Element(Element::SlotBound)),
        Primitive::SlotInitargs => Group::Two(Binary::SlotInitargs),
        Primitive::SlotInitform => Group::Two(Binary::SlotInitform),
        Primitive::Continuable => Group::One(Unary::Continuable),
        Primitive::StandardInput => Group::Zero(Nullary::StandardInput),
        Primitive::StandardOutput => Group::Zero(Nullary::StandardOutput),
        Primitive::PutChar => Group::Stream(Stream::PutChar),
        Primitive::IsFreshLine => Group::Stream(Stream::IsFreshLine),
        Primitive::GetByte => Group::Stream(Stream::GetByte),
        Primitive::PeekByte => Group::Stream(Stream::PeekByte),
    }
}
