// What the words of the command line ask for.

ghost use Rattle.std.specs.Prelude.{◌≡◌, Some, None, IfOk, MatchOption, map, option_map};
ghost use Rattle.clap.specs.Walk.{first_of, rows_of};
ghost use Rattle.clap.specs.Matches.{found_of};
ghost use Rattle.top_command.specs.Command.{asked as asked_of, asked_by, asked_for, action_in as action_in_of, made_in as made_in_of, parts_of};

use crate::command_line::parsed;
use crate::numbers::{arena_in, made_number, steps_in};
use base::{NoMemory, Words};
use clap::ArgMatches;
use std::alloc::Global;

/// What is done with a file.
#[derive(Clone, Copy)]
pub enum Action {
    /// It is compiled and run.
    Run,
    /// The same, and the value of its last form is printed.
    Show,
    /// It is judged alone.
    Check,
    /// It is compiled, and its image is written.
    Build,
    /// It is an image, and is run.
    Exec,
    /// It is evaluated.
    Plain,
    /// It is no file but a number, of which a text is made that is compiled and run.
    Make(u32),
}

/// What a command asks for: an action, how many instructions a run may execute, or how many levels an evaluation
/// may have, the words of its arena, and a file.
#[derive(Drop)]
pub struct Command {
    pub action: Action,
    pub steps: u32,
    pub arena: u32,
    pub file: String,
}

// The same with the file's name where the words have it.
#[derive(Clone, Copy)]
struct Choice<'a> {
    action: Action,
    steps: u32,
    arena: u32,
    file: &'a str,
}

/// What the words ask for; none where they are no command, as `Command.antt` says.
pub fn asked(alloc: Global, words: &Words) -> Result<Option<Command>, NoMemory>
    ensures { IfOk result (λ o. MatchOption o (asked_of words.now ≡ None)
        (λ c. asked_of words.now ≡ Some (parts_of c))) }
{
    let texts = texts_of(alloc, words)?;
    let command = asked_in(alloc, texts.as_slice());
    drop(texts);
    command
}

/// The words as texts.
pub(crate) fn texts_of<'a>(alloc: Global, words: &'a Words) -> Result<Vec<&'a str>, NoMemory>
    ensures { IfOk result (λ texts. map (λ s. s.now) texts.items ≡ words.now) }
{
    let mut texts = Vec::new(alloc);
    while let Some(word) = words.get(texts.len()) {
        texts.push(word)?;
    }
    Ok(texts)
}

// The same of words that are texts.
fn asked_in(alloc: Global, words: &[&str]) -> Result<Option<Command>, NoMemory>
    ensures { IfOk result (λ o. MatchOption o (asked_of (map (λ s. s.now) words.now) ≡ None)
        (λ c. asked_of (map (λ s. s.now) words.now) ≡ Some (parts_of c))) }
{
    let Some(matches) = parsed(alloc, words)? else {
        return Ok(None);
    };
    let command = command_of(alloc, &matches);
    drop(matches);
    command
}

// The command that the arguments make.
fn command_of(alloc: Global, matches: &ArgMatches<'_>) -> Result<Option<Command>, NoMemory>
    ensures { IfOk result (λ o. MatchOption o (asked_by (rows_of (found_of matches.now)) ≡ None)
        (λ c. asked_by (rows_of (found_of matches.now)) ≡ Some (parts_of c))) }
{
    let Some(choice) = chosen(
        action_in(value(matches, "action"), value(matches, "file")),
        steps_in(value(matches, "steps")),
        arena_in(value(matches, "arena")),
        value(matches, "file"),
    ) else {
        return Ok(None);
    };
    Ok(Some(Command {
        action: choice.action,
        steps: choice.steps,
        arena: choice.arena,
        file: String::from_str(alloc, choice.file)?,
    }))
}

// The value of an argument, where it has one.
fn value<'a>(matches: &ArgMatches<'a>, name: &str) -> Option<&'a str>
    ensures { option_map (λ s. s.now) result ≡ first_of name.now (rows_of (found_of matches.now)) }
{
    matches.get_str(name)
}

// The parts of a command, where all are there.
fn chosen<'a>(
    action: Option<Action>,
    steps: Option<u32>,
    arena: Option<u32>,
    file: Option<&'a str>,
) -> Option<Choice<'a>>
    ensures { MatchOption result (asked_for action steps arena (option_map (λ s. s.now) file.entry) ≡ None)
        (λ c. asked_for action steps arena (option_map (λ s. s.now) file.entry)
        ≡ Some (record { action = c.action; steps = c.steps; arena = c.arena; file = c.file.now })) }
{
    Some(Choice {
        action: action?,
        steps: steps?,
        arena: arena?,
        file: file?,
    })
}

// The action of that name; that of `make` has a number in the place of a file.
fn action_in(name: Option<&str>, file: Option<&str>) -> Option<Action>
    ensures { result ≡ action_in_of (option_map (λ s. s.now) name.entry) (option_map (λ s. s.now) file.entry) }
{
    match name? {
        "run" => Some(Action::Run),
        "show" => Some(Action::Show),
        "check" => Some(Action::Check),
        "build" => Some(Action::Build),
        "exec" => Some(Action::Exec),
        "plain" => Some(Action::Plain),
        "make" => made_in(file),
        _ => None,
    }
}

// The action `make` of that number.
fn made_in(file: Option<&str>) -> Option<Action>
    ensures { result ≡ made_in_of (option_map (λ s. s.now) file.entry) }
{
    Some(Action::Make(made_number(file?)?))
}
