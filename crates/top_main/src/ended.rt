// From the end of a program's run or evaluation to the answer of the call.

ghost use Rattle.std.specs.Prelude.{◌≡◌, ◌⊎◌};
ghost use Rattle.lang_meaning.specs.Lookup.{text as text_of};
ghost use Rattle.top_main.specs.Theorem.{class_text};
ghost use Rattle.top_main.specs.Answers.{EndAnswers};
ghost use Rattle.lang_meaning.specs.declared.evaluation.EvaluationEnd.TheVariants.{Unhandled as SignalledEnd};
ghost use Rattle.top_lines.specs.declared.status.CommandAnswer.TheVariants.{Unhandled as Signalled, NoMemory as WantsMemory};

use base::{Bytes, Name, Names, NoMemory, Place};
use front_files::Whole;
use lang_meaning::{ClassId, EvaluationEnd};
use std::alloc::Global;
use top_lines::CommandAnswer;

/// The answer of a program that came to this end, within so many instructions or levels, by a condition of which this is
/// told; to name the class of a condition takes memory.
pub(crate) fn answer_of(
    alloc: Global,
    whole: &Whole,
    steps: u32,
    end: EvaluationEnd,
    told: Option<Bytes>,
) -> CommandAnswer
    ensures { EndAnswers result end told whole.now.names whole.now.program steps }
{
    match end {
        EvaluationEnd::Value => CommandAnswer::Done,
        EvaluationEnd::Unhandled { class, site } => unhandled(alloc, whole, class, site, told),
        EvaluationEnd::Full { asked, left } => CommandAnswer::ArenaFull { asked, left },
        EvaluationEnd::More => CommandAnswer::Budget(steps),
        EvaluationEnd::Spent => CommandAnswer::Spent,
        EvaluationEnd::ReadFault => CommandAnswer::ReadFault,
        EvaluationEnd::WriteFault => CommandAnswer::WriteFault,
    }
}

// The answer of a condition of that class, where memory was not wanting to tell of it.
fn unhandled(
    alloc: Global,
    whole: &Whole,
    class: ClassId,
    site: Place,
    told: Option<Bytes>,
) -> CommandAnswer
    ensures { EndAnswers result (SignalledEnd class site) told whole.now.names whole.now.program 0 }
{
    match told {
        Some(told) => told_of(alloc, whole, class, site, told),
        None => CommandAnswer::NoMemory,
    }
}

// The answer of a condition of that class of which this is told.
fn told_of(alloc: Global, whole: &Whole, class: ClassId, site: Place, told: Bytes) -> CommandAnswer
    ensures { (result ≡ Signalled (class_text whole.now.names whole.now.program class) site told)
        ⊎ (result ≡ WantsMemory) }
{
    match Bytes::from_slice(alloc, class_name(whole, class)) {
        Ok(class) => CommandAnswer::Unhandled { class, site, told },
        Err(NoMemory) => CommandAnswer::NoMemory,
    }
}

// The text of a class's name; empty where there is no such class.
fn class_name(whole: &Whole, class: ClassId) -> &[u8]
    ensures { result.now ≡ class_text whole.now.names whole.now.program class }
{
    match whole.program.rows().classes.get(class) {
        Some(row) => name_text(&whole.names, row.name),
        None => b"",
    }
}

/// The text of a name; empty where there is no such name.
pub(crate) fn name_text(names: &Names, name: Name) -> &[u8]
    ensures { result.now ≡ text_of names.now name.0 }
{
    match names.text(name) {
        Some(text) => text,
        None => b"",
    }
}
