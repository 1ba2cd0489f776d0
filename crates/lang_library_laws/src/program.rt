// The program of the laws: the functions of which there are laws and those that they call, with literals and names, as the laws ask
// for them.

ghost use Rattle.std.specs.Prelude.{◌≡◌, Some, map};
ghost use Rattle.lang_library_laws.specs.Worked.{literal_row, procedure_of, text_of_names, worked_literals, worked_procedure};

use crate::bodies;
use crate::piece::Piece;

/// The functions, in the order of their numbers.
#[derive(Clone, Copy)]
pub enum LawFunction {
    Reverse,
    TurnCopyOnto,
    Length,
    ListLength,
    Member,
    Memv,
    Assoc,
    List,
    Append,
    AppendAll,
    TurnOnto,
    Emit,
    Digit,
    EmitDigit,
    EmitNatural,
    EmitInteger,
    StringEqual,
    EqualVectors,
    Equal,
    NReverse,
    Mapcar,
    Elt,
    ListFrom,
    StringAppend,
    LengthOfAll,
    CopyInto,
    Subseq,
    CheckSequence,
    Listp,
    PartOfList,
}

/// A function: how many arguments have a variable, whether one more variable has the list of the others, and the body.
#[derive(Clone, Copy)]
pub struct LawProcedure {
    pub required: usize,
    pub rest: bool,
    pub body: &'static [Piece],
}

/// A literal: a datum, or a class by its number. `Truth` is the symbol t.
#[derive(Clone, Copy)]
pub enum LawLiteral {
    Nil,
    Truth,
    Integer(i32),
    Character(u8),
    Digits,
    Class(usize),
}

/// All functions, by their numbers.
pub const FUNCTIONS: [LawFunction; 30] = [
    LawFunction::Reverse,
    LawFunction::TurnCopyOnto,
    LawFunction::Length,
    LawFunction::ListLength,
    LawFunction::Member,
    LawFunction::Memv,
    LawFunction::Assoc,
    LawFunction::List,
    LawFunction::Append,
    LawFunction::AppendAll,
    LawFunction::TurnOnto,
    LawFunction::Emit,
    LawFunction::Digit,
    LawFunction::EmitDigit,
    LawFunction::EmitNatural,
    LawFunction::EmitInteger,
    LawFunction::StringEqual,
    LawFunction::EqualVectors,
    LawFunction::Equal,
    LawFunction::NReverse,
    LawFunction::Mapcar,
    LawFunction::Elt,
    LawFunction::ListFrom,
    LawFunction::StringAppend,
    LawFunction::LengthOfAll,
    LawFunction::CopyInto,
    LawFunction::Subseq,
    LawFunction::CheckSequence,
    LawFunction::Listp,
    LawFunction::PartOfList,
];

/// The names of the functions by their numbers, and behind them those of what they call besides and of t, each in a line.
pub const NAMES: &[u8] =
    b"reverse\n%turn-copy-onto\nlength\n%list-length\nmember\n%memv\nassoc\nlist\nappend\n%append-all\n%turn-onto\n%emit\n%digit\n%emit-digit\n%emit-natural\n%emit-integer\nstring=\n%equal-vectors\nequal\nnreverse\nmapcar\nelt\n%list-from\nstring-append\n%length-of-all\n%copy-into\nsubseq\n%sequence\nlistp\n%part-of-list\n%domain-error\nt\n%program-error\n%part-of-string\n%part-of-vector\n%all-left\n%heads\n%advance\n";

/// The digits of all radices.
pub const DIGITS: &[u8] = b"0123456789ABCDEFGHIJKLMNOPQRSTUVWXYZ";

const LITERALS: [LawLiteral; 69] = [
    LawLiteral::Nil,
    LawLiteral::Integer(0),
    LawLiteral::Integer(1),
    LawLiteral::Truth,
    LawLiteral::Class(8),
    LawLiteral::Truth,
    LawLiteral::Truth,
    LawLiteral::Truth,
    LawLiteral::Nil,
    LawLiteral::Truth,
    LawLiteral::Truth,
    LawLiteral::Nil,
    LawLiteral::Truth,
    LawLiteral::Nil,
    LawLiteral::Class(8),
    LawLiteral::Truth,
    LawLiteral::Digits,
    LawLiteral::Integer(0),
    LawLiteral::Truth,
    LawLiteral::Integer(0),
    LawLiteral::Integer(0),
    LawLiteral::Character(b'-'),
    LawLiteral::Integer(0),
    LawLiteral::Integer(0),
    LawLiteral::Integer(1),
    LawLiteral::Nil,
    LawLiteral::Truth,
    LawLiteral::Integer(0),
    LawLiteral::Integer(1),
    LawLiteral::Nil,
    LawLiteral::Class(6),
    LawLiteral::Truth,
    LawLiteral::Class(6),
    LawLiteral::Nil,
    LawLiteral::Truth,
    LawLiteral::Truth,
    LawLiteral::Class(8),
    LawLiteral::Truth,
    LawLiteral::Class(8),
    LawLiteral::Class(13),
    LawLiteral::Truth,
    LawLiteral::Class(13),
    LawLiteral::Integer(0),
    LawLiteral::Integer(0),
    LawLiteral::Integer(1),
    LawLiteral::Truth,
    LawLiteral::Character(b' '),
    LawLiteral::Integer(0),
    LawLiteral::Integer(0),
    LawLiteral::Integer(0),
    LawLiteral::Integer(1),
    LawLiteral::Integer(1),
    LawLiteral::Class(13),
    LawLiteral::Truth,
    LawLiteral::Class(13),
    LawLiteral::Class(13),
    LawLiteral::Truth,
    LawLiteral::Class(13),
    LawLiteral::Integer(0),
    LawLiteral::Truth,
    LawLiteral::Truth,
    LawLiteral::Truth,
    LawLiteral::Truth,
    LawLiteral::Truth,
    LawLiteral::Class(8),
    LawLiteral::Truth,
    LawLiteral::Integer(0),
    LawLiteral::Nil,
    LawLiteral::Integer(1),
];

/// The literals, by their numbers.
pub fn literals() -> &'static [LawLiteral]
    ensures { map literal_row result.now ≡ worked_literals }
{
    &LITERALS
}

/// The names, by their numbers, each in a line.
pub fn names() -> &'static [u8]
    ensures { result.now ≡ text_of_names }
{
    NAMES
}

/// The procedure of a function, as its law asks for it.
pub fn procedure(function: LawFunction) -> LawProcedure
    ensures { procedure_of result ≡ Some (worked_procedure function) }
{
    match function {
        LawFunction::Reverse => LawProcedure {
            required: 1,
            rest: false,
            body: &bodies::REVERSE,
        },
        LawFunction::TurnCopyOnto => LawProcedure {
            required: 2,
            rest: false,
            body: &bodies::TURN_COPY_ONTO,
        },
        LawFunction::Length => LawProcedure {
            required: 1,
            rest: false,
            body: &bodies::LENGTH,
        },
        LawFunction::ListLength => LawProcedure {
            required: 1,
            rest: false,
            body: &bodies::LIST_LENGTH,
        },
        LawFunction::Member => LawProcedure {
            required: 2,
            rest: false,
            body: &bodies::MEMBER,
        },
        LawFunction::Memv => LawProcedure {
            required: 2,
            rest: false,
            body: &bodies::MEMV,
        },
        LawFunction::Assoc => LawProcedure {
            required: 2,
            rest: false,
            body: &bodies::ASSOC,
        },
        LawFunction::List => LawProcedure {
            required: 0,
            rest: true,
            body: &bodies::LIST,
        },
        LawFunction::Append => LawProcedure {
            required: 0,
            rest: true,
            body: &bodies::APPEND,
        },
        LawFunction::AppendAll => LawProcedure {
            required: 2,
            rest: false,
            body: &bodies::APPEND_ALL,
        },
        LawFunction::TurnOnto => LawProcedure {
            required: 2,
            rest: false,
            body: &bodies::TURN_ONTO,
        },
        LawFunction::Emit => LawProcedure {
            required: 2,
            rest: false,
            body: &bodies::EMIT,
        },
        LawFunction::Digit => LawProcedure {
            required: 1,
            rest: false,
            body: &bodies::DIGIT,
        },
        LawFunction::EmitDigit => LawProcedure {
            required: 2,
            rest: false,
            body: &bodies::EMIT_DIGIT,
        },
        LawFunction::EmitNatural => LawProcedure {
            required: 3,
            rest: false,
            body: &bodies::EMIT_NATURAL,
        },
        LawFunction::EmitInteger => LawProcedure {
            required: 3,
            rest: false,
            body: &bodies::EMIT_INTEGER,
        },
        LawFunction::StringEqual => LawProcedure {
            required: 2,
            rest: false,
            body: &bodies::STRING_EQUAL,
        },
        LawFunction::EqualVectors => LawProcedure {
            required: 2,
            rest: false,
            body: &bodies::EQUAL_VECTORS,
        },
        LawFunction::Equal => LawProcedure {
            required: 2,
            rest: false,
            body: &bodies::EQUAL,
        },
        LawFunction::NReverse => LawProcedure {
            required: 1,
            rest: false,
            body: &bodies::NREVERSE,
        },
        LawFunction::Mapcar => LawProcedure {
            required: 2,
            rest: true,
            body: &bodies::MAPCAR,
        },
        LawFunction::Elt => LawProcedure {
            required: 2,
            rest: false,
            body: &bodies::ELT,
        },
        LawFunction::ListFrom => LawProcedure {
            required: 2,
            rest: false,
            body: &bodies::LIST_FROM,
        },
        LawFunction::StringAppend => LawProcedure {
            required: 0,
            rest: true,
            body: &bodies::STRING_APPEND,
        },
        LawFunction::LengthOfAll => LawProcedure {
            required: 1,
            rest: false,
            body: &bodies::LENGTH_OF_ALL,
        },
        LawFunction::CopyInto => LawProcedure {
            required: 3,
            rest: false,
            body: &bodies::COPY_INTO,
        },
        LawFunction::Subseq => LawProcedure {
            required: 3,
            rest: false,
            body: &bodies::SUBSEQ,
        },
        LawFunction::CheckSequence => LawProcedure {
            required: 1,
            rest: false,
            body: &bodies::CHECK_SEQUENCE,
        },
        LawFunction::Listp => LawProcedure {
            required: 1,
            rest: false,
            body: &bodies::LISTP,
        },
        LawFunction::PartOfList => LawProcedure {
            required: 3,
            rest: false,
            body: &bodies::PART_OF_LIST,
        },
    }
}
