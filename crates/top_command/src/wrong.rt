// Which word is wrong, where words are no command.

ghost use Rattle.std.specs.Prelude.{◌≡◌, IfOk, Some, is_some, map, option_map};
ghost use Rattle.top_command.specs.declared.wrong.Wanted.TheVariants as wanted;
ghost use Rattle.top_command.specs.Wrong.{behind, behind_any, after, is_option, holds, stands_alone, goes_on, behind_word, next, wrong_word};
ghost use Rattle.top_command.specs.declared.wrong.Step.TheVariants as step;

use crate::command::texts_of;
use crate::numbers::{is_value, made_number};
use base::{Bytes, NoMemory, Words};
use std::alloc::Global;

/// What is wanted of the next word that is no option.
#[derive(Clone, Copy)]
pub enum Wanted {
    Action,
    File,
    Number,
    Nothing,
}

/// What is known behind a word: what is wanted of the next one that is no option, and whether `--` has ended these; that it
/// is the value of `--arena` or of `--steps`, and what is wanted behind it; or that the word is wrong.
#[derive(Clone, Copy)]
pub enum Step {
    GoesOn(bool, Wanted),
    Takes(bool, Wanted),
    Wrong,
}

/// The first word that cannot stand where it stands, copied; none where a word is wanting, or an option stands twice.
pub fn wrong_word(alloc: Global, words: &Words) -> Result<Option<Bytes>, NoMemory>
    ensures { IfOk result (λ word. word ≡ wrong_word words.now) }
{
    let texts = texts_of(alloc, words)?;
    let word = copied(alloc, first_wrong(texts.as_slice()));
    drop(texts);
    word
}

fn copied(alloc: Global, word: Option<&str>) -> Result<Option<Bytes>, NoMemory>
    ensures { IfOk result (λ copy. copy ≡ option_map (λ s. s.now) word.entry) }
{
    match word {
        None => Ok(None),
        Some(word) => Ok(Some(Bytes::from_slice(alloc, word.as_bytes())?)),
    }
}

// The first word that is wrong.
fn first_wrong<'a>(words: &[&'a str]) -> Option<&'a str>
    ensures { option_map (λ s. s.now) result ≡ wrong_word (map (λ s. s.now) words.now) }
{
    let mut step = Step::GoesOn(false, Wanted::Action);
    for word in words {
        step = next(step, word);
        if let Step::Wrong = step {
            return Some(*word);
        }
    }
    None
}

fn next(step: Step, word: &str) -> Step
    ensures { result ≡ next step word.now }
{
    match step {
        Step::GoesOn(ended, wanted) => behind_word(ended, wanted, word),
        Step::Takes(arena, wanted) => behind_value(arena, wanted, word),
        Step::Wrong => Step::Wrong,
    }
}

fn behind_value(arena: bool, wanted: Wanted, word: &str) -> Step
    ensures { result ≡ next (step.Takes arena wanted) word.now }
{
    if is_value(arena, word.as_bytes()) {
        Step::GoesOn(false, wanted)
    } else {
        Step::Wrong
    }
}

fn behind_word(ended: bool, wanted: Wanted, word: &str) -> Step
    ensures { result ≡ behind_word ended wanted word.now }
{
    if ended {
        return goes_on(true, behind(wanted, word));
    }
    match word {
        "--" => Step::GoesOn(true, wanted),
        "--steps" => Step::Takes(false, wanted),
        "--arena" => Step::Takes(true, wanted),
        _ => goes_on(false, behind_any(wanted, word)),
    }
}

fn goes_on(ended: bool, wanted: Option<Wanted>) -> Step
    ensures { result ≡ goes_on ended wanted }
{
    match wanted {
        None => Step::Wrong,
        Some(wanted) => Step::GoesOn(ended, wanted),
    }
}

// What is wanted behind an option with its value, or behind any other word.
fn behind_any(wanted: Wanted, word: &str) -> Option<Wanted>
    ensures { result ≡ behind_any wanted word.now }
{
    if !is_option(word.as_bytes()) {
        behind(wanted, word)
    } else if stands_alone(word.as_bytes()) {
        Some(wanted)
    } else {
        None
    }
}

// What is wanted behind a word that is no option.
fn behind(wanted: Wanted, word: &str) -> Option<Wanted>
    ensures { result ≡ behind wanted word.now }
{
    match wanted {
        Wanted::Action => behind_action(word),
        Wanted::File => Some(Wanted::Nothing),
        Wanted::Number => match made_number(word) {
            Some(_) => Some(Wanted::Nothing),
            None => None,
        },
        Wanted::Nothing => None,
    }
}

fn behind_action(word: &str) -> Option<Wanted>
    ensures { result ≡ behind wanted.Action word.now }
{
    match word {
        "make" => Some(Wanted::Number),
        "run" | "show" | "check" | "build" | "exec" | "plain" => Some(Wanted::File),
        _ => None,
    }
}

fn is_option(word: &[u8]) -> bool
    ensures { result ≡ is_option word.now }
{
    1 < word.len() && word[0] == b'-'
}

fn stands_alone(word: &[u8]) -> bool
    ensures { result ≡ stands_alone word.now }
{
    holds(false, after(b"--steps=", word)) || holds(true, after(b"--arena=", word))
}

fn holds(arena: bool, value: Option<&[u8]>) -> bool
    ensures { result ≡ holds arena (option_map (λ s. s.now) value.entry) }
{
    match value {
        None => false,
        Some(value) => is_value(arena, value),
    }
}

// What stands behind a prefix.
#[cycle(after)]
fn after<'a>(prefix: &[u8], word: &'a [u8]) -> Option<&'a [u8]>
    ensures { option_map (λ s. s.now) result ≡ after prefix.now word.now }
{
    let Some((first, more)) = prefix.split_first() else {
        return Some(word);
    };
    let (byte, rest) = word.split_first()?;
    if *byte == *first {
        after(more, rest)
    } else {
        None
    }
}
