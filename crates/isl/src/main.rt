// The program: the words of the command line, and the files, the input and the outputs of the system.
#![tactic(auto)]

ghost use Rattle.std.specs.Prelude.{◌≡◌, ◌≢◌, ◌⊎◌, [], None};
ghost use Rattle.std.specs.Process.{exit_status};
ghost use Rattle.top_command.specs.Command.{asked};
ghost use Rattle.top_help.specs.Told.{told as told_of};
ghost use Rattle.top_main.specs.Theorem.{name_in};
ghost use Rattle.base.specs.Given.{WasGiven};
ghost use Rattle.top_lines.specs.Lines.{line_of, number_of, status_of as status_of_answer};
ghost use Rattle.top_lines.specs.declared.status.CommandAnswer.{CommandAnswer as AnswerValue};
ghost use Rattle.top_lines.specs.declared.status.Status.TheVariants.{Done, Usage, WriteFault, NoMemory as WantsMemory};

mod command_words;
mod fault_count;
mod file_shelf;
mod std_sink;
mod std_source;

use base::{Failed, Sink, Words, write_all};
use command_words::command_words;
use file_shelf::FileShelf;
use std::process::ExitCode;
use std_sink::StdSink;
use std_source::StdSource;
use top_help::told;
use top_main::lines::end_with;
use top_main::{CommandAnswer, Kept, Status, isl_main};

fn main(rt: HostRuntime) -> ExitCode {
    let mut err = StdSink::new(rt.stderr());
    let status = match command_words(&rt) {
        Ok(words) => status_of(&rt, &words, &mut err),
        Err(answer) => end_with(&mut err, b"", answer),
    };
    exit_code(status)
}

// The status of a call with these words: of one that asks for a text, by whether it was printed.
fn status_of<E: Sink>(rt: &HostRuntime, words: &Words, err: &mut E) -> Status
    ensures usage { result ≡ Usage → asked words.now ≡ None }
    ensures words_first { asked words.now ≡ None → told_of words.now ≡ None →
        (result ≡ Usage) ⊎ ((result ≡ WriteFault) ⊎ (result ≡ WantsMemory)) }
    ensures told { told_of words.now ≢ None → (result ≡ Done) ⊎ (result ≡ WriteFault) }
    ensures line { result ≢ WriteFault → (answer : AnswerValue) × ((result ≡ status_of_answer answer)
        × WasGiven (E.given err.old) (line_of (name_in (asked words.now)) answer) (E.given err.new)) }
{
    match told(words) {
        Some(text) => told_status(rt, text, err),
        None => called(rt, words, err),
    }
}

// A text is printed; the status says whether all of it was.
fn told_status<E: Sink>(rt: &HostRuntime, text: &[u8], err: &mut E) -> Status
    ensures told { (result ≡ Done) ⊎ (result ≡ WriteFault) }
    ensures quiet { result ≢ WriteFault → WasGiven (E.given err.old) [] (E.given err.new) }
{
    let mut out = StdSink::new(rt.stdout());
    match write_all(&mut out, text) {
        Ok(()) => end_with(err, b"", CommandAnswer::Done),
        Err(Failed) => end_with(err, b"", CommandAnswer::WriteFault),
    }
}

// The status of a call that asks for no text.
fn called<E: Sink>(rt: &HostRuntime, words: &Words, err: &mut E) -> Status
    ensures usage { result ≡ Usage → asked words.now ≡ None }
    ensures words_first { asked words.now ≡ None →
        (result ≡ Usage) ⊎ ((result ≡ WriteFault) ⊎ (result ≡ WantsMemory)) }
    ensures line { result ≢ WriteFault → (answer : AnswerValue) × ((result ≡ status_of_answer answer)
        × WasGiven (E.given err.old) (line_of (name_in (asked words.now)) answer) (E.given err.new)) }
{
    let mut shelf = FileShelf::new(rt, rt.stdin(), rt.alloc());
    let mut input = StdSource::new(rt.stdin());
    let mut out = StdSink::new(rt.stdout());
    let mut kept = Kept::new();
    isl_main(
        rt.alloc(),
        words,
        &mut shelf,
        &mut input,
        &mut out,
        err,
        &mut kept,
    )
}

// The status as the process ends with it.
fn exit_code(status: Status) -> ExitCode
    ensures { exit_status result ≡ number_of status }
{
    ExitCode::from(status.number())
}
