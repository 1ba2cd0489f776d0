// The lines that statuses write to the error sink, and the line of counts.

ghost use Rattle.std.specs.Prelude.{◌≡◌, ◌≢◌, ◌≤◌, ◌<◌, List, ℕ, OnOk, OnErr, IsOk, ◌++◌, []};
ghost use Rattle.std.specs.Fmt.{decimal};
ghost use Rattle.base.specs.Outside.{Rose};
ghost use Rattle.base.specs.Given.{WasGiven, WasGivenFront};
ghost use Rattle.top_lines.specs.Lines.{line, line_of, unhandled_line, site_in, place_in, unhandled_class_line, site_text, bad_image_line, trap_line, labelled, counts_line, refusal_lines, refused_line, place_text, reason_text, arena_full_line, budget_line, usage_line, usage_text as usage, status_of};
ghost use Rattle.top_lines.specs.Sentences.{sentence_of as sentence};
ghost use Rattle.top_lines.specs.declared.status.Status.TheVariants.{WriteFault};

use crate::excerpts::write_excerpt;
use crate::sentences::sentence_of;
use crate::status::{CommandAnswer, Status};
use crate::warnings::write_warnings;
use base::{Bytes, Failed, Place, Reason, Refusal, Sink, write_all};
use rv_image_file::BadImage;
use rv_machine::TrapKind;

/// Writes the line of an answer about a text that is called so, whose status is then given; a refusal has four lines, and a
/// file that is a program one for each warning.
/// `WriteFault` where the line can't be written whole.
pub fn end_with<E: Sink>(err: &mut E, file: &[u8], answer: CommandAnswer) -> Status
    ensures written { result ≢ WriteFault → result ≡ status_of answer }
    ensures line { result ≢ WriteFault → WasGiven (E.given err.old) (line_of file.now answer) (E.given err.new) }
    ensures quiet { line_of file.now answer ≡ [] → result ≡ status_of answer }
    ensures fault { result ≡ WriteFault → status_of answer ≢ WriteFault →
        Rose (E.faults err.old) (E.faults err.new) }
    ensures count { E.faults err.old ≤ E.faults err.new }
{
    let status = status_with(err, file, &answer);
    drop(answer);
    status
}

// The same of an answer that is kept.
fn status_with<E: Sink>(err: &mut E, file: &[u8], answer: &CommandAnswer) -> Status
    ensures written { result ≢ WriteFault → result ≡ status_of answer.now }
    ensures line { result ≢ WriteFault → WasGiven (E.given err.old) (line_of file.now answer.now) (E.given err.new) }
    ensures quiet { line_of file.now answer.now ≡ [] → result ≡ status_of answer.now }
    ensures fault { result ≡ WriteFault → status_of answer.now ≢ WriteFault →
        Rose (E.faults err.old) (E.faults err.new) }
    ensures count { E.faults err.old ≤ E.faults err.new }
{
    match write_line(err, file, answer) {
        Ok(()) => answer.status(),
        Err(Failed) => Status::WriteFault,
    }
}

// Writes the line of an answer; nothing for those that have none.
fn write_line<E: Sink>(err: &mut E, file: &[u8], answer: &CommandAnswer) -> Result<(), Failed>
    ensures given { OnOk result (WasGiven (E.given err.old) (line_of file.now answer.now) (E.given err.new)) }
    ensures quiet { line_of file.now answer.now ≡ [] → IsOk result }
    ensures fault { OnErr result (Rose (E.faults err.old) (E.faults err.new)) }
    ensures count { E.faults err.old ≤ E.faults err.new }
{
    match answer {
        CommandAnswer::Done | CommandAnswer::WriteFault => Ok(()),
        CommandAnswer::Checked(warnings) => write_warnings(err, file, warnings.as_slice()),
        CommandAnswer::Unhandled { class, site, told } => {
            write_unhandled(err, file, class.as_slice(), *site, told.as_slice())
        }
        CommandAnswer::Usage(word) => write_usage(err, word),
        CommandAnswer::Refused { refusal, text } => {
            write_refusal(err, file, text.as_slice(), *refusal)
        }
        CommandAnswer::ArenaFull { asked, left } => write_arena_full(err, *asked, *left),
        CommandAnswer::Budget(steps) => write_budget(err, *steps),
        CommandAnswer::Spent => write_all(err, b"spent 9223372036854775808\n"),
        CommandAnswer::FileFault => write_all(err, b"file fault\n"),
        CommandAnswer::ReadFault => write_all(err, b"read fault\n"),
        CommandAnswer::NoMemory => write_all(err, b"no memory\n"),
        CommandAnswer::UnhandledClass { class, site } => write_unhandled_class(err, *class, *site),
        CommandAnswer::BadImage(fault) => write_bad_image(err, *fault),
        CommandAnswer::Trap { kind, address } => write_trap(err, *kind, *address),
    }
}

// How a command is written, and the word that is wrong.
fn write_usage<E: Sink>(err: &mut E, word: &Option<Bytes>) -> Result<(), Failed>
    ensures given { OnOk result (WasGiven (E.given err.old) (usage_line word.now) (E.given err.new)) }
    ensures fault { OnErr result (Rose (E.faults err.old) (E.faults err.new)) }
    ensures count { E.faults err.old ≤ E.faults err.new }
{
    write_all(err, usage_text())?;
    if let Some(word) = word {
        write_all(err, b"; wrong: ")?;
        write_all(err, word.as_slice())?;
    }
    write_all(err, b"\n")
}

// How a command is written.
#[tactic(auto, unfolding(crate::specs::Lines::usage_text))]
fn usage_text() -> &'static [u8]
    ensures { result.now ≡ usage }
{
    b"usage: isl [--steps N] [--arena W] run|show|check|build|exec|plain FILE, or make N; isl --help tells more"
}

// `FILE:LINE:COLUMN: unhandled CLASS`, or `FILE: unhandled CLASS`, with what is told of the condition
fn write_unhandled<E: Sink>(
    err: &mut E,
    file: &[u8],
    class: &[u8],
    site: Place,
    told: &[u8],
) -> Result<(), Failed>
    ensures given { OnOk result (WasGiven (E.given err.old) (unhandled_line file.now class.now site told.now) (E.given err.new)) }
    ensures fault { OnErr result (Rose (E.faults err.old) (E.faults err.new)) }
    ensures count { E.faults err.old ≤ E.faults err.new }
{
    write_site_in(err, file, site)?;
    write_all(err, b": unhandled ")?;
    write_all(err, class)?;
    write_all(err, told)?;
    write_all(err, b"\n")
}

// `FILE:LINE:COLUMN` of the site of a condition; FILE alone where it has no place, 0:0
fn write_site_in<E: Sink>(err: &mut E, file: &[u8], site: Place) -> Result<(), Failed>
    ensures given { OnOk result (WasGiven (E.given err.old) (site_in file.now site) (E.given err.new)) }
    ensures fault { OnErr result (Rose (E.faults err.old) (E.faults err.new)) }
    ensures count { E.faults err.old ≤ E.faults err.new }
{
    if site.line == 0 && site.column == 0 {
        return write_all(err, file);
    }
    write_place_in(err, file, site)
}

/// `FILE:LINE:COLUMN`
pub(crate) fn write_place_in<E: Sink>(err: &mut E, file: &[u8], place: Place) -> Result<(), Failed>
    ensures given { OnOk result (WasGiven (E.given err.old) (place_in file.now place) (E.given err.new)) }
    ensures fault { OnErr result (Rose (E.faults err.old) (E.faults err.new)) }
    ensures count { E.faults err.old ≤ E.faults err.new }
{
    write_all(err, file)?;
    write_all(err, b":")?;
    write_place(err, place)
}

// `unhandled class N at LINE:COLUMN`, or `unhandled class N`
fn write_unhandled_class<E: Sink>(
    err: &mut E,
    class: u32,
    site: Option<Place>,
) -> Result<(), Failed>
    ensures given { OnOk result (WasGiven (E.given err.old) (unhandled_class_line class site) (E.given err.new)) }
    ensures fault { OnErr result (Rose (E.faults err.old) (E.faults err.new)) }
    ensures count { E.faults err.old ≤ E.faults err.new }
{
    write_labelled(err, b"unhandled class ", u64::from(class))?;
    write_file_site(err, site)?;
    write_all(err, b"\n")
}

// ` at LINE:COLUMN` of the place of a site, where there is one
fn write_file_site<E: Sink>(err: &mut E, site: Option<Place>) -> Result<(), Failed>
    ensures given { OnOk result (WasGiven (E.given err.old) (site_text site) (E.given err.new)) }
    ensures fault { OnErr result (Rose (E.faults err.old) (E.faults err.new)) }
    ensures count { E.faults err.old ≤ E.faults err.new }
{
    match site {
        None => Ok(()),
        Some(place) => {
            write_all(err, b" at ")?;
            write_place(err, place)
        }
    }
}

// The lines of a refusal.
fn write_refusal<E: Sink>(
    err: &mut E,
    file: &[u8],
    text: &[u8],
    refusal: Refusal,
) -> Result<(), Failed>
    ensures given { OnOk result (WasGiven (E.given err.old) (refusal_lines file.now text.now refusal) (E.given err.new)) }
    ensures fault { OnErr result (Rose (E.faults err.old) (E.faults err.new)) }
    ensures count { E.faults err.old ≤ E.faults err.new }
{
    write_refused(err, file, refusal)?;
    write_excerpt(err, text, refusal.place)?;
    write_sentence(err, refusal.reason)
}

// `FILE:LINE:COLUMN: refused NUMBER NAME`
fn write_refused<E: Sink>(err: &mut E, file: &[u8], refusal: Refusal) -> Result<(), Failed>
    ensures given { OnOk result (WasGiven (E.given err.old) (refused_line file.now refusal) (E.given err.new)) }
    ensures fault { OnErr result (Rose (E.faults err.old) (E.faults err.new)) }
    ensures count { E.faults err.old ≤ E.faults err.new }
{
    write_place_in(err, file, refusal.place)?;
    write_all(err, b": refused ")?;
    write_reason(err, refusal.reason)?;
    write_all(err, b"\n")
}

// The sentence of a reason.
fn write_sentence<E: Sink>(err: &mut E, reason: Reason) -> Result<(), Failed>
    ensures given { OnOk result (WasGiven (E.given err.old) (line (sentence reason)) (E.given err.new)) }
    ensures fault { OnErr result (Rose (E.faults err.old) (E.faults err.new)) }
    ensures count { E.faults err.old ≤ E.faults err.new }
{
    write_all(err, sentence_of(reason).as_bytes())?;
    write_all(err, b"\n")
}

// `LINE:COLUMN`
fn write_place<E: Sink>(err: &mut E, place: Place) -> Result<(), Failed>
    ensures given { OnOk result (WasGiven (E.given err.old) (place_text place) (E.given err.new)) }
    ensures fault { OnErr result (Rose (E.faults err.old) (E.faults err.new)) }
    ensures count { E.faults err.old ≤ E.faults err.new }
{
    write_number(err, u64::from(place.line))?;
    write_all(err, b":")?;
    write_number(err, u64::from(place.column))
}

// `NUMBER NAME`
fn write_reason<E: Sink>(err: &mut E, reason: Reason) -> Result<(), Failed>
    ensures given { OnOk result (WasGiven (E.given err.old) (reason_text reason) (E.given err.new)) }
    ensures fault { OnErr result (Rose (E.faults err.old) (E.faults err.new)) }
    ensures count { E.faults err.old ≤ E.faults err.new }
{
    write_number(err, u64::from(reason.number()))?;
    write_all(err, b" ")?;
    write_all(err, reason.text().as_bytes())
}

// `arena full ASKED LEFT`
fn write_arena_full<E: Sink>(err: &mut E, asked: u64, left: u64) -> Result<(), Failed>
    ensures given { OnOk result (WasGiven (E.given err.old) (arena_full_line asked left) (E.given err.new)) }
    ensures fault { OnErr result (Rose (E.faults err.old) (E.faults err.new)) }
    ensures count { E.faults err.old ≤ E.faults err.new }
{
    write_all(err, b"arena full ")?;
    write_number(err, asked)?;
    write_all(err, b" ")?;
    write_number(err, left)?;
    write_all(err, b"\n")
}

// `bad image NUMBER NAME`
fn write_bad_image<E: Sink>(err: &mut E, fault: BadImage) -> Result<(), Failed>
    ensures given { OnOk result (WasGiven (E.given err.old) (bad_image_line fault) (E.given err.new)) }
    ensures fault { OnErr result (Rose (E.faults err.old) (E.faults err.new)) }
    ensures count { E.faults err.old ≤ E.faults err.new }
{
    write_labelled(err, b"bad image ", u64::from(fault.number()))?;
    write_all(err, b" ")?;
    write_all(err, fault.text().as_bytes())?;
    write_all(err, b"\n")
}

// `trap KIND ADDRESS`
fn write_trap<E: Sink>(err: &mut E, kind: TrapKind, address: u32) -> Result<(), Failed>
    ensures given { OnOk result (WasGiven (E.given err.old) (trap_line kind address) (E.given err.new)) }
    ensures fault { OnErr result (Rose (E.faults err.old) (E.faults err.new)) }
    ensures count { E.faults err.old ≤ E.faults err.new }
{
    write_labelled(err, b"trap ", u64::from(kind.number()))?;
    write_labelled(err, b" ", u64::from(address))?;
    write_all(err, b"\n")
}

// `budget N`
fn write_budget<E: Sink>(err: &mut E, steps: u32) -> Result<(), Failed>
    ensures given { OnOk result (WasGiven (E.given err.old) (budget_line steps) (E.given err.new)) }
    ensures fault { OnErr result (Rose (E.faults err.old) (E.faults err.new)) }
    ensures count { E.faults err.old ≤ E.faults err.new }
{
    write_all(err, b"budget ")?;
    write_number(err, u64::from(steps))?;
    write_all(err, b"\n")
}

/// Writes the line of counts, `nodes A words B instructions C`: of a program, of its image and of the run; takes no
/// memory. After `Failed`, which comes only where the count of the sink's faults rose, a front of it was given.
pub fn write_counts<O: Sink>(
    out: &mut O,
    nodes: u64,
    words: u64,
    executed: u64,
) -> Result<(), Failed>
    ensures given { OnOk result (WasGiven (O.given out.old) (counts_line nodes words executed) (O.given out.new)) }
    ensures cut { OnErr result (WasGivenFront (O.given out.old) (counts_line nodes words executed) (O.given out.new)) }
    ensures fault { OnErr result (Rose (O.faults out.old) (O.faults out.new)) }
    ensures count { O.faults out.old ≤ O.faults out.new }
{
    write_labelled(out, b"nodes ", nodes)?;
    write_labelled(out, b" words ", words)?;
    write_labelled(out, b" instructions ", executed)?;
    write_all(out, b"\n")
}

// A number behind its label.
#[tactic(auto, unfolding(crate::specs::Lines::labelled))]
fn write_labelled<O: Sink>(out: &mut O, label: &[u8], number: u64) -> Result<(), Failed>
    ensures given { OnOk result (WasGiven (O.given out.old) (labelled label.now number) (O.given out.new)) }
    ensures cut { OnErr result (WasGivenFront (O.given out.old) (labelled label.now number) (O.given out.new)) }
    ensures fault { OnErr result (Rose (O.faults out.old) (O.faults out.new)) }
    ensures count { O.faults out.old ≤ O.faults out.new }
{
    write_all(out, label)?;
    write_number(out, number)
}

/// The number in decimal digits.
pub(crate) fn write_number<E: Sink>(err: &mut E, number: u64) -> Result<(), Failed>
    ensures given { OnOk result (WasGiven (E.given err.old) (decimal number) (E.given err.new)) }
    ensures cut { OnErr result (WasGivenFront (E.given err.old) (decimal number) (E.given err.new)) }
    ensures fault { OnErr result (Rose (E.faults err.old) (E.faults err.new)) }
    ensures count { E.faults err.old ≤ E.faults err.new }
{
    let mut room = [0; 20];
    write_all(err, decimal_in(&mut room, number))
}

// The decimal digits of a number, at the end of the room for them.
fn decimal_in(room: &mut [u8; 20], number: u64) -> &[u8]
    ensures { result.now ≡ decimal number }
{
    let mut at = 19;
    let mut rest = number;
    room[at] = b'0' + (rest % 10) as u8;
    while rest >= 10 {
        rest /= 10;
        at -= 1;
        room[at] = b'0' + (rest % 10) as u8;
    }
    &room[at..]
}
