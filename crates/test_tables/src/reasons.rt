// The reasons of refusals, by their numbers.

use base::Reason;
use test_rows::RowAnswer;

// All reasons.
const REASONS: [Reason; 38] = [
    Reason::BadByte,
    Reason::UnclosedList,
    Reason::UnclosedString,
    Reason::UnclosedComment,
    Reason::StrayClose,
    Reason::BadDot,
    Reason::BadSharp,
    Reason::FloatLiteral,
    Reason::IntegerTooWide,
    Reason::NestTooDeep,
    Reason::SourceTooLong,
    Reason::NameTooLong,
    Reason::BadShape,
    Reason::NotAForm,
    Reason::BadBinding,
    Reason::DuplicateName,
    Reason::NotTopLevel,
    Reason::ReservedName,
    Reason::UnknownBlock,
    Reason::UnknownTag,
    Reason::ConstantSet,
    Reason::LeftOut,
    Reason::DepthLimit,
    Reason::ProgramTooLarge,
    Reason::UnknownClass,
    Reason::BadSupers,
    Reason::BadSlot,
    Reason::UnknownGeneric,
    Reason::BadMethod,
    Reason::DispatchTooLarge,
    Reason::ExpanderUnhandled,
    Reason::ExpanderPrinted,
    Reason::ExpanderArena,
    Reason::ExpanderBudget,
    Reason::ExpansionNotForm,
    Reason::ExpansionTooLarge,
    Reason::ExpansionDepth,
    Reason::TooManyExpansions,
];

/// A number. The answer is the names of the reasons that have it.
pub fn answer_row(got: &mut RowAnswer, line: &str) -> Option<()> {
    let number: u8 = line.parse().ok()?;
    for reason in &REASONS {
        if reason.number() == number {
            got.put(reason.text());
        }
    }
    Some(())
}
