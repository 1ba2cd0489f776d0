// The call that does all that the program does.

ghost use Rattle.std.specs.Prelude.{◌≡◌, ◌≢◌, ◌≤◌, ◌⊎◌, Some, None, option_map};
ghost use Rattle.std.specs.String.{string_bytes};
ghost use Rattle.base.specs.Outside.{Rose};
ghost use Rattle.base.specs.Given.{WasGiven};
ghost use Rattle.top_command.specs.Command.{Request, asked as asked_of, parts_of};
ghost use Rattle.top_command.specs.Wrong.{wrong_word as wrong_of};
ghost use Rattle.top_lines.specs.Lines.{line_of, status_of, file_fault_line, no_memory_line};
ghost use Rattle.top_lines.specs.declared.status.CommandAnswer.{CommandAnswer as AnswerValue};
ghost use Rattle.top_lines.specs.declared.status.CommandAnswer.TheVariants.{WriteFault as AnswerCut, Usage as UsageOf, NoMemory as AnswerWants};
ghost use Rattle.top_lines.specs.declared.status.Status.TheVariants.{Done, Unhandled, Usage, Refused, ArenaFull, Budget, FileFault, ReadFault, WriteFault, NoMemory as WantsMemory, BadImage, Trap};
ghost use Rattle.top_exec.specs.Runs.{sent_to};
ghost use Rattle.top_main.specs.Theorem.{IsUsage, IsDone, IsWritten, IsUnhandled, IsArenaFull, IsTooLarge, IsBudget, IsSpent, IsRefused, IsReadFault, IsCutOff, IsWrittenCutOff, IsUnnamed, IsBroken, IsUntold, IsExecuted, IsExecutedSo, IsExecutedUntold, IsLargeImage, IsBadImage, ReadsNothing, KeepsNothing, MakesText, name_in as name_of_asked};
ghost use Rattle.top_main.specs.Answers.{WordsAnswers, Obeys, SaysOk};

use crate::build::build_file;
use crate::check::check_file;
use crate::kept::Kept;
use crate::make::make_text;
use crate::name::name_in;
use crate::plain::plain_file;
use crate::run::run_file;
use base::{Failed, NoMemory, Shelf, Sink, Source, Words, write_all};
use std::alloc::Global;
use top_command::{Action, Command, asked, wrong_word};
use top_exec::{Bounds, exec_file};
use top_lines::{CommandAnswer, Status, end_with};

/// Does all that the program does: judges the words, takes the file from the shelf, and judges its text as a whole
/// program. For `run` and `show` it compiles the program, runs at most so many instructions of the image with `input` and `out`,
/// and leaves the image in `kept`; for `build` it gives `out` the bytes of the file of the image, which it leaves there too, and
/// for `check` a line for each warning to `err`, and the line `ok`; for `plain` it evaluates the program within so many levels with `input` and `out`. For `make` it
/// does what it does for `run` with the text of a number in the place of a file, and gives `out` a line of counts. For `exec` it
/// reads the file as an image file, and runs that image. Then it writes the line of the status to `err`.
pub fn isl_main<F: Shelf, S: Source, O: Sink, E: Sink>(
    alloc: Global,
    words: &Words,
    shelf: &mut F,
    input: &mut S,
    out: &mut O,
    err: &mut E,
    kept: &mut Kept,
) -> Status
    // The words are judged first: where they are no command, nothing else is touched. To judge them takes
    // memory, which may be wanting.
    ensures usage { result ≡ Usage → IsUsage words.now (E.given err.old) (E.given err.new)
        × (input.new ≡ input.old) }
    ensures words_first { asked_of words.now ≡ None →
        ((result ≡ Usage) ⊎ ((result ≡ WriteFault) ⊎ (result ≡ WantsMemory)))
        × (shelf.new ≡ shelf.old) × (out.new ≡ out.old) × (input.new ≡ input.old) × (kept.new.image ≡ None) }

    // The text of a file to run or to show, of a number, or of a file to evaluate, is a whole program; its image ran, and is kept, or it was
    // evaluated as it means; it ends with a value, and all that it prints was given, and of a number the counts. Or that of a file to check or to
    // build is one, and its warnings were told and `ok` was given, or the bytes of its image file. Or the image of a file halts.
    ensures done { result ≡ Done →
        IsDone words.now (F.holds shelf.old) kept.new.image (S.left input.old) (S.left input.new)
        (sent_to (O.given out.old) (O.writes out.old) (O.given out.new) (O.writes out.new)) (E.given err.old) (E.given err.new)
        ⊎ (IsWritten words.now (F.holds shelf.old) kept.new.image
        (sent_to (O.given out.old) (O.writes out.old) (O.given out.new) (O.writes out.new)) (E.given err.old) (E.given err.new)
        ⊎ IsExecutedSo words.now (F.holds shelf.old) kept.new.image (S.left input.old) (S.left input.new)
        (sent_to (O.given out.old) (O.writes out.old) (O.given out.new) (O.writes out.new)) (E.given err.old) (E.given err.new) Done) }

    // It ends by a condition that no handler took; the line says where in which file it was signalled, and of which class.
    ensures unhandled { result ≡ Unhandled →
        IsUnhandled words.now (F.holds shelf.old) kept.new.image (S.left input.old) (S.left input.new)
        (sent_to (O.given out.old) (O.writes out.old) (O.given out.new) (O.writes out.new)) (E.given err.old) (E.given err.new)
        ⊎ IsExecutedSo words.now (F.holds shelf.old) kept.new.image (S.left input.old) (S.left input.new)
        (sent_to (O.given out.old) (O.writes out.old) (O.given out.new) (O.writes out.new)) (E.given err.old) (E.given err.new) Unhandled }

    // It ends for want of words; the line says how many were asked for, and how many were left. Or the image has more words than the arena, and
    // nothing ran.
    ensures arena_full { result ≡ ArenaFull →
        IsArenaFull words.now (F.holds shelf.old) kept.new.image (S.left input.old) (S.left input.new)
        (sent_to (O.given out.old) (O.writes out.old) (O.given out.new) (O.writes out.new)) (E.given err.old) (E.given err.new)
        ⊎ (IsExecutedSo words.now (F.holds shelf.old) kept.new.image (S.left input.old) (S.left input.new)
        (sent_to (O.given out.old) (O.writes out.old) (O.given out.new) (O.writes out.new)) (E.given err.old) (E.given err.new) ArenaFull
        ⊎ ((IsTooLarge words.now (F.holds shelf.old) kept.new.image (E.given err.old) (E.given err.new)
        ⊎ IsLargeImage words.now (F.holds shelf.old) kept.new.image (E.given err.old) (E.given err.new))
        × ((out.new ≡ out.old) × (input.new ≡ input.old)))) }

    // A run that does not end within its instructions, or an evaluation that ends for want of levels; the line
    // says how many. Or one that counts more units than there are forms that may begin.
    ensures budget { result ≡ Budget →
        IsBudget words.now (F.holds shelf.old) kept.new.image (S.left input.old) (S.left input.new)
        (sent_to (O.given out.old) (O.writes out.old) (O.given out.new) (O.writes out.new)) (E.given err.old) (E.given err.new)
        ⊎ (IsSpent words.now (F.holds shelf.old) kept.new.image (S.left input.old) (S.left input.new)
        (sent_to (O.given out.old) (O.writes out.old) (O.given out.new) (O.writes out.new)) (E.given err.old) (E.given err.new)
        ⊎ IsExecutedSo words.now (F.holds shelf.old) kept.new.image (S.left input.old) (S.left input.new)
        (sent_to (O.given out.old) (O.writes out.old) (O.given out.new) (O.writes out.new)) (E.given err.old) (E.given err.new) Budget) }

    // The text is refused; the lines say where in which file and why.
    ensures refused { result ≡ Refused →
        IsRefused words.now (F.holds shelf.old) (E.given err.old) (E.given err.new)
        × (out.new ≡ out.old) × (input.new ≡ input.old) × (kept.new.image ≡ None) }

    // The file to run as an image is no image file; the line says why.
    ensures bad_image { result ≡ BadImage →
        IsBadImage words.now (F.holds shelf.old) kept.new.image (E.given err.old) (E.given err.new)
        × ((out.new ≡ out.old) × (input.new ≡ input.old)) }

    // The image of a file traps; the line says how and where.
    ensures trap { result ≡ Trap →
        IsExecutedSo words.now (F.holds shelf.old) kept.new.image (S.left input.old) (S.left input.new)
        (sent_to (O.given out.old) (O.writes out.old) (O.given out.new) (O.writes out.new)) (E.given err.old) (E.given err.new) Trap }

    ensures file_fault { result ≡ FileFault → Rose (F.faults shelf.old) (F.faults shelf.new)
        × (out.new ≡ out.old) × (input.new ≡ input.old) × (kept.new.image ≡ None)
        × WasGiven (E.given err.old) file_fault_line (E.given err.new) }

    // The input failed where the program was to read: the run was to get a byte, or what is evaluated takes all that was read, whatever follows.
    ensures read_fault { result ≡ ReadFault → Rose (S.faults input.old) (S.faults input.new)
        × (IsReadFault words.now (F.holds shelf.old) kept.new.image (S.left input.old) (S.left input.new)
        (sent_to (O.given out.old) (O.writes out.old) (O.given out.new) (O.writes out.new)) (E.given err.old) (E.given err.new)
        ⊎ IsExecutedSo words.now (F.holds shelf.old) kept.new.image (S.left input.old) (S.left input.new)
        (sent_to (O.given out.old) (O.writes out.old) (O.given out.new) (O.writes out.new)) (E.given err.old) (E.given err.new) ReadFault) }

    // A line could not be written with nothing given to `out`; or the output of the run or of the evaluation, the counts, the line `ok` or the bytes
    // of the image file were cut off behind a front; or the line of a run or of an evaluation could not be written.
    ensures write_fault { result ≡ WriteFault →
        (Rose (E.faults err.old) (E.faults err.new) × ((out.new ≡ out.old) × (input.new ≡ input.old)))
        ⊎ ((Rose (O.faults out.old) (O.faults out.new)
        × (IsCutOff words.now (F.holds shelf.old) kept.new.image (S.left input.old) (S.left input.new)
        (sent_to (O.given out.old) (O.writes out.old) (O.given out.new) (O.writes out.new))
        ⊎ (IsWrittenCutOff words.now (F.holds shelf.old) kept.new.image
        (sent_to (O.given out.old) (O.writes out.old) (O.given out.new) (O.writes out.new))
        ⊎ IsExecuted words.now (F.holds shelf.old) kept.new.image (S.left input.old) (S.left input.new)
        (sent_to (O.given out.old) (O.writes out.old) (O.given out.new) (O.writes out.new)) AnswerCut)))
        ⊎ (Rose (E.faults err.old) (E.faults err.new)
        × (IsUntold words.now (F.holds shelf.old) kept.new.image (S.left input.old) (S.left input.new)
        (sent_to (O.given out.old) (O.writes out.old) (O.given out.new) (O.writes out.new))
        ⊎ (IsBroken words.now (F.holds shelf.old) kept.new.image (S.left input.old) (S.left input.new)
        (sent_to (O.given out.old) (O.writes out.old) (O.given out.new) (O.writes out.new))
        ⊎ IsExecutedUntold words.now (F.holds shelf.old) kept.new.image (S.left input.old) (S.left input.new)
        (sent_to (O.given out.old) (O.writes out.old) (O.given out.new) (O.writes out.new)))))) }

    // Nothing was read or given to `out`; or the class of a condition could not be named; or an evaluation broke off.
    ensures no_memory { result ≡ WantsMemory →
        (((out.new ≡ out.old) × (input.new ≡ input.old))
        ⊎ (IsUnnamed words.now (F.holds shelf.old) kept.new.image (S.left input.old) (S.left input.new)
        (sent_to (O.given out.old) (O.writes out.old) (O.given out.new) (O.writes out.new))
        ⊎ IsBroken words.now (F.holds shelf.old) kept.new.image (S.left input.old) (S.left input.new)
        (sent_to (O.given out.old) (O.writes out.old) (O.given out.new) (O.writes out.new))))
        × WasGiven (E.given err.old) no_memory_line (E.given err.new) }
    // The line is that of an answer with this status.
    ensures line { result ≢ WriteFault → (told : AnswerValue) × ((result ≡ status_of told)
        × WasGiven (E.given err.old) (line_of (name_of_asked (asked_of words.now)) told) (E.given err.new)) }
    // A check and a build do not read the input.
    ensures input { (command : Request) → asked_of words.now ≡ Some command → ReadsNothing command.action →
        input.new ≡ input.old }
    // A check, an evaluation and an image file that is run leave no image.
    ensures kept { (command : Request) → asked_of words.now ≡ Some command → KeepsNothing command.action →
        kept.new.image ≡ None }
    // The text of a number is made without the shelf.
    ensures shelf { (command : Request) → asked_of words.now ≡ Some command → MakesText command.action →
        shelf.new ≡ shelf.old }
{
    kept.image = None;
    let Answered { command, answer } = answer_to(alloc, words, shelf, input, out, kept);
    let is_checked = answer.is_checked();
    let status = end_with(err, name_in(&command), answer);
    drop(command);
    if is_checked {
        say_ok(out, status)
    } else {
        status
    }
}

// Writes the line `ok` of a check, where its warnings were written.
fn say_ok<O: Sink>(out: &mut O, status: Status) -> Status
    ensures { SaysOk status result (O.given out.old) (O.given out.new)
        (Rose (O.faults out.old) (O.faults out.new)) (out.new ≡ out.old) }
{
    match status {
        Status::Done => match write_all(out, b"ok\n") {
            Ok(()) => Status::Done,
            Err(Failed) => Status::WriteFault,
        },
        other => other,
    }
}

// The answer to the words, and the command that they ask for; none where they are none, or memory was wanting to tell.
#[derive(Drop)]
struct Answered {
    command: Option<Command>,
    answer: CommandAnswer,
}

// The answer to the words.
fn answer_to<F: Shelf, S: Source, O: Sink>(
    alloc: Global,
    words: &Words,
    shelf: &mut F,
    input: &mut S,
    out: &mut O,
    kept: &mut Kept,
) -> Answered
    requires empty { kept.old.image ≡ None }
    ensures { WordsAnswers result.answer (name_of_asked (option_map parts_of result.command)) words.now
        (F.holds shelf.old) kept.new.image
        (S.left input.old) (S.left input.new)
        (sent_to (O.given out.old) (O.writes out.old) (O.given out.new) (O.writes out.new))
        (Rose (F.faults shelf.old) (F.faults shelf.new)) (Rose (S.faults input.old) (S.faults input.new))
        (Rose (O.faults out.old) (O.faults out.new))
        (out.new ≡ out.old) (input.new ≡ input.old) (shelf.new ≡ shelf.old) }
{
    match asked(alloc, words) {
        Ok(Some(command)) => {
            let answer = obey(alloc, &command, shelf, input, out, kept);
            Answered {
                command: Some(command),
                answer,
            }
        }
        Ok(None) => Answered {
            command: None,
            answer: usage(alloc, words),
        },
        Err(NoMemory) => Answered {
            command: None,
            answer: CommandAnswer::NoMemory,
        },
    }
}

// The answer to words that are no command; to tell which is wrong takes memory.
fn usage(alloc: Global, words: &Words) -> CommandAnswer
    ensures { (result ≡ UsageOf (wrong_of words.now)) ⊎ (result ≡ AnswerWants) }
{
    match wrong_word(alloc, words) {
        Ok(word) => CommandAnswer::Usage(word),
        Err(NoMemory) => CommandAnswer::NoMemory,
    }
}

// What the command asks for.
fn obey<F: Shelf, S: Source, O: Sink>(
    alloc: Global,
    command: &Command,
    shelf: &mut F,
    input: &mut S,
    out: &mut O,
    kept: &mut Kept,
) -> CommandAnswer
    requires most { command.now.arena ≤ 16777216 }
    requires empty { kept.old.image ≡ None }
    ensures { Obeys result (parts_of command.now) (F.holds shelf.old (string_bytes command.now.file)) kept.new.image
        (S.left input.old) (S.left input.new)
        (sent_to (O.given out.old) (O.writes out.old) (O.given out.new) (O.writes out.new))
        (Rose (F.faults shelf.old) (F.faults shelf.new)) (Rose (S.faults input.old) (S.faults input.new))
        (Rose (O.faults out.old) (O.faults out.new)) (out.new ≡ out.old) (input.new ≡ input.old) (shelf.new ≡ shelf.old) }
{
    let bounds = Bounds {
        steps: command.steps,
        arena: command.arena,
    };
    let file = command.file.as_str();
    act(alloc, command.action, bounds, file, shelf, input, out, kept)
}

// The action on the file of that name.
fn act<F: Shelf, S: Source, O: Sink>(
    alloc: Global,
    action: Action,
    bounds: Bounds,
    file: &str,
    shelf: &mut F,
    input: &mut S,
    out: &mut O,
    kept: &mut Kept,
) -> CommandAnswer
    requires most { bounds.arena ≤ 16777216 }
    requires empty { kept.old.image ≡ None }
    ensures { Obeys result (record { action = action; steps = bounds.steps; arena = bounds.arena; file = file.now })
        (F.holds shelf.old file.now) kept.new.image
        (S.left input.old) (S.left input.new)
        (sent_to (O.given out.old) (O.writes out.old) (O.given out.new) (O.writes out.new))
        (Rose (F.faults shelf.old) (F.faults shelf.new)) (Rose (S.faults input.old) (S.faults input.new))
        (Rose (O.faults out.old) (O.faults out.new)) (out.new ≡ out.old) (input.new ≡ input.old) (shelf.new ≡ shelf.old) }
{
    match action {
        Action::Run => run_file(alloc, Action::Run, bounds, file, shelf, input, out, kept),
        Action::Show => run_file(alloc, Action::Show, bounds, file, shelf, input, out, kept),
        Action::Check => check_file(alloc, file, shelf),
        Action::Build => build_file(alloc, file, shelf, out, kept),
        Action::Exec => exec_file(alloc, bounds, file, shelf, input, out),
        Action::Plain => plain_file(alloc, bounds, file, shelf, input, out),
        Action::Make(number) => make_text(alloc, number, bounds, input, out, kept),
    }
}
