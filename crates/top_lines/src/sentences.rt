// Why a text is refused, in one sentence for each reason.

ghost use Rattle.std.specs.Prelude.{◌≡◌};
ghost use Rattle.top_lines.specs.Sentences.{sentence_of};

use base::Reason;

/// The sentence that a refusal has in its last line; at most 110 bytes.
pub(crate) fn sentence_of(reason: Reason) -> &'static str
    ensures { result.now ≡ sentence_of reason }
{
    match reason {
        Reason::BadByte => "no spelling of the language allows this byte here",
        Reason::UnclosedList => {
            "the text ends before the list, the vector or the prefix that begins here is complete"
        }
        Reason::UnclosedString => {
            "the text ends before the string or the symbol between bars that begins here is closed"
        }
        Reason::UnclosedComment => {
            "the text ends before the block comment that begins here is closed"
        }
        Reason::StrayClose => {
            "this parenthesis closes no list, or stands where a prefix wants a datum"
        }
        Reason::BadDot => {
            "a dot stands only in a list, behind a datum and before exactly one last datum"
        }
        Reason::BadSharp => "the language has no such spelling that begins with #",
        Reason::FloatLiteral => "this is a float, and the language has whole numbers alone",
        Reason::IntegerTooWide => {
            "integers go from -536870912 to 536870911, and this one lies outside"
        }
        Reason::NestTooDeep => "data may be nested 256 deep, and here they are nested deeper",
        Reason::SourceTooLong => "a file may have 1,048,576 bytes, and this one has more",
        Reason::NameTooLong => "the name of a symbol may have 256 bytes, and this one has more",
        Reason::BadShape => "a form with this head may not have these parts, or may not stand here",
        Reason::NotAForm => {
            "a list that stands for a form has no dot, and its head is a symbol or a lambda form"
        }
        Reason::BadBinding => {
            "this is no list of parameters or bindings, or a part of it is none, stands twice, or is named nil or t"
        }
        Reason::DuplicateName => {
            "the name is defined already, or an option of a slot names a function that is not generic"
        }
        Reason::NotTopLevel => {
            "a defining form stands at top level, or in a progn there, and not inside another form"
        }
        Reason::ReservedName => {
            "the language or its library keeps this name, so a program may not define it"
        }
        Reason::UnknownBlock => "no block of this name stands around the return-from",
        Reason::UnknownTag => "no tagbody with this tag stands around the go",
        Reason::ConstantSet => {
            "t, nil and what defconstant defines are constants, and no form may set them"
        }
        Reason::LeftOut => "the standard has this form or option, and this profile leaves it out",
        Reason::DepthLimit => {
            "1,000 forms may stand around a form, steps of derived forms included, and here stand more"
        }
        Reason::ProgramTooLarge => {
            "with this form the program and the library have more than 100,000 nodes"
        }
        Reason::UnknownClass => "no class of this name is defined before this place",
        Reason::BadSupers => {
            "a superclass is not allowed or stands twice, or two share more than <standard-object> and <object>"
        }
        Reason::BadSlot => {
            "an option of this slot is wrong, its name stands twice, or the class has more than 64 slots"
        }
        Reason::UnknownGeneric => "no generic function of this name is defined before this method",
        Reason::BadMethod => {
            "its parameters or its qualifier do not fit the generic function, or such a method is there already"
        }
        Reason::DispatchTooLarge => {
            "with this form the tables that choose methods have more than 262,144 cells"
        }
        Reason::ExpanderUnhandled => {
            "the expander of this macro ended by a condition that it did not handle"
        }
        Reason::ExpanderPrinted => "the expander of this macro printed, and no expander may",
        Reason::ExpanderArena => {
            "the expander of this macro was too large for its arena, or filled it"
        }
        Reason::ExpanderBudget => "the expander of this macro did not end within its instructions",
        Reason::ExpansionNotForm => {
            "the expansion of this macro has an object in it that is no datum"
        }
        Reason::ExpansionTooLarge => {
            "the expansion of this macro has a size above 100,000, or is nested deeper than 256"
        }
        Reason::ExpansionDepth => {
            "200 expansions may stand around an expansion, and here stand more"
        }
        Reason::TooManyExpansions => "a file may have 5,000 expansions, and this one has more",
    }
}
