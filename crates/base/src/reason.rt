// Why a file is refused, and the two ways that judging one stops.

ghost use Rattle.std.specs.Prelude.{◌≡◌};
ghost use Rattle.base.specs.Reason.{number_of, text_of};

use crate::faults::NoMemory;
use crate::place::Place;
use thiserror::Error;

/// What a file can be refused for.
#[derive(Clone, Copy, Debug, PartialEq, Eq)]
pub enum Reason {
    /// A byte that no spelling allows at its place.
    BadByte,
    /// The text ends inside a list or a vector, or after a prefix.
    UnclosedList,
    /// The text ends inside a string or a bar symbol.
    UnclosedString,
    /// The text ends inside a block comment.
    UnclosedComment,
    /// A closing parenthesis that closes nothing, or follows a prefix.
    StrayClose,
    /// A dot that is not before exactly one last datum of a list.
    BadDot,
    /// A spelling after `#` that the language does not have.
    BadSharp,
    /// A token that spells a float.
    FloatLiteral,
    /// An integer literal outside the range of integers.
    IntegerTooWide,
    /// Data nested deeper than 256.
    NestTooDeep,
    /// A file of more than 1,048,576 bytes.
    SourceTooLong,
    /// A symbol whose name has more than 256 bytes.
    NameTooLong,
    /// A special, derived or defining form of a shape that it does not allow.
    BadShape,
    /// A datum that stands for a form and is none.
    NotAForm,
    /// A lambda list or binding list with a part that it does not allow.
    BadBinding,
    /// A second definition of a name in one namespace.
    DuplicateName,
    /// A defining form below top level.
    NotTopLevel,
    /// A definition of a name that the language keeps to itself.
    ReservedName,
    /// A return from a block that is not lexically around.
    UnknownBlock,
    /// A `go` to a tag that is not lexically around.
    UnknownTag,
    /// An assignment to a constant, or a constant made of a variable that is set.
    ConstantSet,
    /// A form or an option of the standard that this profile leaves out.
    LeftOut,
    /// A form inside 1,000 other forms of its top-level form.
    DepthLimit,
    /// A program that passes 100,000 nodes.
    ProgramTooLarge,
    /// A class name that is not defined earlier.
    UnknownClass,
    /// Superclasses that are repeated, in conflict or not allowed.
    BadSupers,
    /// A wrong slot or slot option, or more than 64 slots.
    BadSlot,
    /// A method of a name that is no earlier generic function.
    UnknownGeneric,
    /// A method that is not congruent, wrongly qualified or there already.
    BadMethod,
    /// Dispatch tables that pass 262,144 cells.
    DispatchTooLarge,
    /// An expander that ended by an unhandled condition.
    ExpanderUnhandled,
    /// An expander that has printed.
    ExpanderPrinted,
    /// An expander that is too large for its arena, or has filled it.
    ExpanderArena,
    /// An expander that does not end within its budget.
    ExpanderBudget,
    /// An expansion that holds an object that is no datum.
    ExpansionNotForm,
    /// An expansion of a size above 100,000 or nested deeper than 256.
    ExpansionTooLarge,
    /// An expansion inside a row of 200 expansions.
    ExpansionDepth,
    /// More than 5,000 expansions of a file.
    TooManyExpansions,
}

impl Reason {
    /// The number of the reason, which no other reason has.
    pub fn number(self) -> u8
        ensures { result ≡ number_of self }
    {
        match self {
            Reason::BadByte => 1,
            Reason::UnclosedList => 2,
            Reason::UnclosedString => 3,
            Reason::UnclosedComment => 4,
            Reason::StrayClose => 5,
            Reason::BadDot => 6,
            Reason::BadSharp => 7,
            Reason::FloatLiteral => 8,
            Reason::IntegerTooWide => 9,
            Reason::NestTooDeep => 10,
            Reason::SourceTooLong => 11,
            Reason::NameTooLong => 12,
            Reason::BadShape => 20,
            Reason::NotAForm => 21,
            Reason::BadBinding => 22,
            Reason::DuplicateName => 23,
            Reason::NotTopLevel => 24,
            Reason::ReservedName => 25,
            Reason::UnknownBlock => 26,
            Reason::UnknownTag => 27,
            Reason::ConstantSet => 28,
            Reason::LeftOut => 29,
            Reason::DepthLimit => 30,
            Reason::ProgramTooLarge => 31,
            Reason::UnknownClass => 40,
            Reason::BadSupers => 41,
            Reason::BadSlot => 42,
            Reason::UnknownGeneric => 43,
            Reason::BadMethod => 44,
            Reason::DispatchTooLarge => 45,
            Reason::ExpanderUnhandled => 60,
            Reason::ExpanderPrinted => 61,
            Reason::ExpanderArena => 62,
            Reason::ExpanderBudget => 63,
            Reason::ExpansionNotForm => 64,
            Reason::ExpansionTooLarge => 65,
            Reason::ExpansionDepth => 66,
            Reason::TooManyExpansions => 67,
        }
    }

    /// The name of the reason, as the enum spells it.
    pub fn text(self) -> &'static str
        ensures { result.now ≡ text_of self }
    {
        match self {
            Reason::BadByte => "BadByte",
            Reason::UnclosedList => "UnclosedList",
            Reason::UnclosedString => "UnclosedString",
            Reason::UnclosedComment => "UnclosedComment",
            Reason::StrayClose => "StrayClose",
            Reason::BadDot => "BadDot",
            Reason::BadSharp => "BadSharp",
            Reason::FloatLiteral => "FloatLiteral",
            Reason::IntegerTooWide => "IntegerTooWide",
            Reason::NestTooDeep => "NestTooDeep",
            Reason::SourceTooLong => "SourceTooLong",
            Reason::NameTooLong => "NameTooLong",
            Reason::BadShape => "BadShape",
            Reason::NotAForm => "NotAForm",
            Reason::BadBinding => "BadBinding",
            Reason::DuplicateName => "DuplicateName",
            Reason::NotTopLevel => "NotTopLevel",
            Reason::ReservedName => "ReservedName",
            Reason::UnknownBlock => "UnknownBlock",
            Reason::UnknownTag => "UnknownTag",
            Reason::ConstantSet => "ConstantSet",
            Reason::LeftOut => "LeftOut",
            Reason::DepthLimit => "DepthLimit",
            Reason::ProgramTooLarge => "ProgramTooLarge",
            Reason::UnknownClass => "UnknownClass",
            Reason::BadSupers => "BadSupers",
            Reason::BadSlot => "BadSlot",
            Reason::UnknownGeneric => "UnknownGeneric",
            Reason::BadMethod => "BadMethod",
            Reason::DispatchTooLarge => "DispatchTooLarge",
            Reason::ExpanderUnhandled => "ExpanderUnhandled",
            Reason::ExpanderPrinted => "ExpanderPrinted",
            Reason::ExpanderArena => "ExpanderArena",
            Reason::ExpanderBudget => "ExpanderBudget",
            Reason::ExpansionNotForm => "ExpansionNotForm",
            Reason::ExpansionTooLarge => "ExpansionTooLarge",
            Reason::ExpansionDepth => "ExpansionDepth",
            Reason::TooManyExpansions => "TooManyExpansions",
        }
    }
}

/// A reason and the place that it stands at.
#[derive(Clone, Copy, Debug, PartialEq, Eq)]
pub struct Refusal {
    pub place: Place,
    pub reason: Reason,
}

/// Why a file was not judged good: it is refused, or memory was wanting.
#[derive(Clone, Copy, Debug, PartialEq, Eq, Error)]
pub enum Stop {
    #[error("refused")]
    Refused(Refusal),
    #[error("no memory")]
    NoMemory,
}

impl From<NoMemory> for Stop {
    ghost use Rattle.std.specs.Prelude.{◌≡◌};
    ghost use Rattle.base.specs.declared.reason.Stop.TheVariants.{NoMemory as no_memory};

    ghost from_gives = { λ _ stop. stop ≡ no_memory };

    fn from(_want: NoMemory) -> Stop {
        Stop::NoMemory
    }
}
