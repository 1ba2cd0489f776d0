// The text of a value in words, so that it can be read again: part by part, each from the word that points to it.

ghost use Rattle.std.specs.Prelude.{◌≡◌, ◌+◌, ◌<◌, ◌≤◌, ℕ, List, OnOk, IfErr};
ghost use Rattle.mid_told.specs.declared.parts.Part.TheVariants.{Vector, Cons};
ghost use Rattle.mid_told.specs.Parts.{part_size as size_of_part};
ghost use Rattle.mid_told.specs.Writing.{HaltsBy, AtomWritten, PartWritten, PartUnwritten, WordWritten, WordUnwritten};

use crate::memory::word_in;
use crate::parts::{Atom, Part, part_of, part_size};
use crate::strings::bytes_in;
use base::{Bytes, NoMemory};
use lang_told::{append_character, append_fresh, append_integer, append_name, append_string};
use std::alloc::Global;

/// Why a value is not written: a part of it is no datum or takes more than is left, or memory is wanting.
#[derive(Clone, Copy)]
pub enum Halt {
    Unwritten,
    NoMemory,
}

impl From<NoMemory> for Halt {
    ghost use Rattle.std.specs.Prelude.{◌≡◌};
    ghost use Rattle.mid_told.specs.declared.writing.Halt.TheVariants.{NoMemory as no_memory};

    ghost from_gives = { λ _ halt. halt ≡ no_memory };

    fn from(_want: NoMemory) -> Halt {
        Halt::NoMemory
    }
}

/// Appends the text of the value of a word, which takes of what is left. After a halt some of it may be appended.
#[cycle(write)]
pub fn write_word(
    alloc: Global,
    words: &[u32],
    word: u32,
    left: &mut usize,
    out: &mut Bytes,
) -> Result<(), Halt>
    ensures writes { OnOk result (WordWritten words.now word left.old out.old out.new left.new) }
    ensures halts { IfErr result (λ halt. HaltsBy (WordUnwritten words.now word left.old) halt) }
    ensures less { OnOk result (left.new < left.old) }
{
    let part = part_of(words, word);
    write_part(alloc, words, part, left, out)
}

#[cycle(write)]
fn write_part(
    alloc: Global,
    words: &[u32],
    part: Part,
    left: &mut usize,
    out: &mut Bytes,
) -> Result<(), Halt>
    ensures writes { OnOk result (PartWritten words.now part left.old out.old out.new left.new) }
    ensures halts { IfErr result (λ halt. HaltsBy (PartUnwritten words.now part left.old) halt) }
    ensures less { OnOk result (left.new < left.old) }
{
    spend(part, left)?;
    match part {
        Part::Atom(atom) => {
            write_atom(alloc, words, atom, out)?;
            Ok(())
        }
        Part::Vector { at, count } => write_vector(alloc, words, at, count, left, out),
        Part::Nil => {
            out.append(b"nil")?;
            Ok(())
        }
        Part::Cons { car, cdr } => write_list(alloc, words, car, cdr, left, out),
        Part::NoDatum => Err(Halt::Unwritten),
    }
}

// The elements one after another; what the vector itself takes is taken.
#[cycle(write)]
fn write_vector(
    alloc: Global,
    words: &[u32],
    at: u32,
    count: u32,
    left: &mut usize,
    out: &mut Bytes,
) -> Result<(), Halt>
    ensures writes { OnOk result (PartWritten words.now (Vector at count) (1 + left.old) out.old out.new left.new) }
    ensures halts { IfErr result (λ halt. HaltsBy (PartUnwritten words.now (Vector at count) (1 + left.old)) halt) }
    ensures less { OnOk result (left.new ≤ left.old) }
{
    out.append(b"#(")?;
    let mut gap: &[u8] = b"";
    for k in 0..count as usize {
        out.append(gap)?;
        let word = word_in(words, at as usize + k);
        write_word(alloc, words, word, left, out)?;
        gap = b" ";
    }
    out.push(b')')?;
    Ok(())
}

// The elements from cons to cons, and then the end; what the list itself takes is taken.
#[cycle(write)]
fn write_list(
    alloc: Global,
    words: &[u32],
    car: u32,
    cdr: u32,
    left: &mut usize,
    out: &mut Bytes,
) -> Result<(), Halt>
    ensures writes { OnOk result (PartWritten words.now (Cons car cdr) (1 + left.old) out.old out.new left.new) }
    ensures halts { IfErr result (λ halt. HaltsBy (PartUnwritten words.now (Cons car cdr) (1 + left.old)) halt) }
    ensures less { OnOk result (left.new ≤ left.old) }
{
    out.append(b"(")?;
    let mut gap: &[u8] = b"";
    let mut part = Part::Cons { car, cdr };
    'conses: loop {
        match part {
            Part::Cons { car, cdr } => {
                out.append(gap)?;
                write_word(alloc, words, car, left, out)?;
                gap = b" ";
                part = part_of(words, cdr);
            }
            Part::Nil => {
                out.push(b')')?;
                return Ok(());
            }
            end => {
                out.append(b" . ")?;
                write_part(alloc, words, end, left, out)?;
                out.push(b')')?;
                return Ok(());
            }
        }
    }
}

// A part takes its own size of what is left.
fn spend(part: Part, left: &mut usize) -> Result<(), Halt>
    ensures ok { OnOk result (left.old ≡ size_of_part part + left.new) }
    ensures halts { IfErr result (λ halt. (words : List ℕ) → HaltsBy (PartUnwritten words part left.old) halt) }
{
    let size = part_size(part);
    if *left < size {
        return Err(Halt::Unwritten);
    }
    *left -= size;
    Ok(())
}

// What has no parts is spelled.
fn write_atom(alloc: Global, words: &[u32], atom: Atom, out: &mut Bytes) -> Result<(), NoMemory>
    ensures { OnOk result (AtomWritten words.now atom out.old out.new) }
{
    match atom {
        Atom::Int(number) => append_integer(alloc, out, number),
        Atom::Char(code) => append_character(out, code),
        Atom::Name { at, count } => {
            let name = bytes_in(alloc, words, at, count)?;
            append_name(out, name.as_slice())
        }
        Atom::Fresh(serial) => append_fresh(alloc, out, u64::from(serial)),
        Atom::Str { at, count } => {
            let bytes = bytes_in(alloc, words, at, count)?;
            append_string(out, bytes.as_slice())
        }
    }
}
