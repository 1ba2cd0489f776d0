// What is told of a condition: its slots, behind a colon.

ghost use Rattle.std.specs.Prelude.{◌≡◌, IfOk, OnOk, None};
ghost use Rattle.mid_told.specs.StandsFor.{IsTold};
ghost use Rattle.mid_told.specs.Reading.{header_in};
ghost use Rattle.mid_told.specs.Classes.{which_class_in};
ghost use Rattle.mid_told.specs.Slots.{slot_count_of};
ghost use Rattle.mid_told.specs.Telling.{ValueTold, SlotTold, SlotsTold, behind};

use crate::classes::{append_class_name, class_of, which_class};
use crate::memory::{header_of, word_in};
use crate::writing::{Halt, write_word};
use base::{Bytes, Names, NoMemory};
use lang_meaning::ClassRows;
use mid_arena::words::UNBOUND;
use std::alloc::Global;

// Of how many parts a value may be that is told as it is printed.
const MOST_PARTS: usize = 100;

// The words of memory from address 0 on, and the names and classes of the program that ran.
#[derive(Clone, Copy)]
struct Memory<'m> {
    words: &'m [u32],
    names: &'m Names,
    classes: &'m ClassRows,
}

/// What is told of a condition behind the name of its class: nothing where it has no slots, else a colon, and behind it for each slot a
/// blank and what is told of its value. `words` are those of memory from address 0 on, `word` is that of the condition, `names` and
/// `classes` are those of the program. Words that represent nothing give some text. The depth of calls is at most that of 100 parts.
pub fn tell_condition(
    alloc: Global,
    names: &Names,
    classes: &ClassRows,
    words: &[u32],
    word: u32,
) -> Result<Bytes, NoMemory>
    ensures { IfOk result (λ told. IsTold names.now classes.now words.now word told) }
{
    let from = Memory {
        words,
        names,
        classes,
    };
    let mut text = Bytes::new(alloc);
    tell_slots(alloc, &from, word, &mut text)?;
    behind_colon(alloc, text)
}

// A text behind a colon, if there is any.
fn behind_colon(alloc: Global, text: Bytes) -> Result<Bytes, NoMemory>
    ensures { IfOk result (λ told. told ≡ behind text) }
{
    if text.len() == 0 {
        return Ok(text);
    }
    let mut told = Bytes::new(alloc);
    told.push(b':')?;
    told.append(text.as_slice())?;
    Ok(told)
}

// The slots of a condition, each behind a blank.
fn tell_slots(alloc: Global, from: &Memory, word: u32, out: &mut Bytes) -> Result<(), NoMemory>
    ensures { OnOk result (SlotsTold from.now word out.old out.new) }
{
    let first = word as usize / 4 + 2;
    for k in 0..slot_count(from.words, word) as usize {
        out.push(b' ')?;
        tell_slot(alloc, from, word_in(from.words, first + k), out)?;
    }
    Ok(())
}

// How many slots an instance has, which its header says; what is no instance has none.
fn slot_count(words: &[u32], word: u32) -> u32
    ensures { result ≡ slot_count_of (header_in words.now word) }
{
    let header = header_of(words, word);
    if header % 16 == 3 { header / 16 } else { 0 }
}

fn tell_slot(alloc: Global, from: &Memory, word: u32, out: &mut Bytes) -> Result<(), NoMemory>
    ensures { OnOk result (SlotTold from.now word out.old out.new) }
{
    if word == UNBOUND {
        out.append(b"#<unbound>")
    } else {
        tell_value(alloc, from, word, out)
    }
}

// A class is told by its name.
fn tell_value(alloc: Global, from: &Memory, word: u32, out: &mut Bytes) -> Result<(), NoMemory>
    ensures { OnOk result (ValueTold from.now word out.old out.new) }
{
    match which_class(from.words, word) {
        Some(class) => append_class_name(from.names, from.classes, class, out),
        None => tell_no_class(alloc, from, word, out),
    }
}

// A value is told as it is printed, where that is written within the parts that it may have, and else by the name of its class.
fn tell_no_class(alloc: Global, from: &Memory, word: u32, out: &mut Bytes) -> Result<(), NoMemory>
    requires { which_class_in from.now.words.now word (header_in from.now.words.now word) ≡ None }
    ensures { OnOk result (ValueTold from.now word out.old out.new) }
{
    let mut text = Bytes::new(alloc);
    let mut left = MOST_PARTS;
    match write_word(alloc, from.words, word, &mut left, &mut text) {
        Ok(()) => out.append(text.as_slice()),
        Err(Halt::Unwritten) => {
            out.push(b'#')?;
            append_class_name(from.names, from.classes, class_of(from.words, word), out)
        }
        Err(Halt::NoMemory) => Err(NoMemory),
    }
}
