// A value is written so that it can be read again: part by part.

ghost use Rattle.std.specs.Prelude.{◌≡◌, ◌++◌, [], suc, IfOk};
ghost use Rattle.lang_taken.specs.Shapes.{shape_of, vector, cons};
ghost use Rattle.eval_store.specs.Words.{value_of_word, values_of};
ghost use Rattle.eval_told.specs.Parts.{objects_of, shape_of_part};
ghost use Rattle.eval_told.specs.Attempts.{Attempted, AttemptedElements, AttemptedChain};

use crate::parts::{Part, append_atom, part_of, part_size};
use base::{Bytes, Names, NoMemory};
use eval_store::{Store, Word};
use std::alloc::Global;

// In front of each part but the first.
const BLANK: &[u8; 1] = b" ";

/// Whether the value of a word is written within what is left; where it is not, what was appended is of no use.
#[cycle(write)]
pub fn write_word<'t>(
    alloc: Global,
    names: &'t Names,
    store: &'t Store<'_>,
    word: Word,
    out: &mut Bytes,
    left: &mut usize,
) -> Result<bool, NoMemory>
    ensures { IfOk result (Attempted (objects_of names.now store.now) (shape_of (objects_of names.now store.now) (value_of_word names.now word)) left.old out.old out.new left.new) }
{
    let part = part_of(names, store, word);
    write_part(alloc, names, store, part, out, left)
}

// A part takes its own size of what is left.
#[cycle(write)]
fn write_part<'t>(
    alloc: Global,
    names: &'t Names,
    store: &'t Store<'_>,
    part: Part<'t>,
    out: &mut Bytes,
    left: &mut usize,
) -> Result<bool, NoMemory>
    ensures { IfOk result (Attempted (objects_of names.now store.now) (shape_of_part names.now part.entry) left.old out.old out.new left.new) }
{
    let size = part_size(part);
    if *left < size {
        return Ok(false);
    }
    *left -= size;
    match part {
        Part::NoDatum => Ok(false),
        Part::Vector(elements) => write_vector(alloc, names, store, elements, out, left),
        Part::Cons(car, cdr) => write_list(alloc, names, store, car, cdr, out, left),
        atom => {
            append_atom(alloc, atom, out)?;
            Ok(true)
        }
    }
}

// What the vector itself takes is taken.
#[cycle(write)]
fn write_vector<'t>(
    alloc: Global,
    names: &'t Names,
    store: &'t Store<'_>,
    elements: &'t [Word],
    out: &mut Bytes,
    left: &mut usize,
) -> Result<bool, NoMemory>
    ensures { IfOk result (Attempted (objects_of names.now store.now) (vector (values_of names.now elements.now)) (suc left.old) out.old out.new left.new) }
{
    out.append(b"#(")?;
    let written = write_elements(alloc, names, store, b"", elements, out, left)?;
    if written {
        out.append(b")")?;
    }
    Ok(written)
}

// Values one after another, the first behind this gap.
#[cycle(write)]
fn write_elements<'t>(
    alloc: Global,
    names: &'t Names,
    store: &'t Store<'_>,
    gap: &[u8],
    elements: &'t [Word],
    out: &mut Bytes,
    left: &mut usize,
) -> Result<bool, NoMemory>
    ensures { IfOk result (AttemptedElements (objects_of names.now store.now) gap.now (values_of names.now elements.now) left.old out.old out.new left.new) }
{
    let Some((first, rest)) = elements.split_first() else {
        return Ok(true);
    };
    out.append(gap)?;
    let written = write_word(alloc, names, store, *first, out, left)?;
    if !written {
        return Ok(false);
    }
    write_elements(alloc, names, store, BLANK, rest, out, left)
}

// What the list itself takes is taken.
#[cycle(write)]
fn write_list<'t>(
    alloc: Global,
    names: &'t Names,
    store: &'t Store<'_>,
    car: Word,
    cdr: Word,
    out: &mut Bytes,
    left: &mut usize,
) -> Result<bool, NoMemory>
    ensures { IfOk result (Attempted (objects_of names.now store.now) (cons (value_of_word names.now car) (value_of_word names.now cdr)) (suc left.old) out.old out.new left.new) }
{
    out.append(b"(")?;
    let part = Part::Cons(car, cdr);
    let written = write_chain(alloc, names, store, b"", part, out, left)?;
    if written {
        out.append(b")")?;
    }
    Ok(written)
}

// The elements of a chain of conses, the first behind this gap, and its end behind a dot, if that is no empty list.
#[cycle(write)]
fn write_chain<'t>(
    alloc: Global,
    names: &'t Names,
    store: &'t Store<'_>,
    gap: &[u8],
    part: Part<'t>,
    out: &mut Bytes,
    left: &mut usize,
) -> Result<bool, NoMemory>
    ensures { IfOk result (AttemptedChain (objects_of names.now store.now) gap.now (shape_of_part names.now part.entry) left.old out.old out.new left.new) }
{
    match part {
        Part::Nil => Ok(true),
        Part::Cons(car, cdr) => {
            out.append(gap)?;
            let written = write_word(alloc, names, store, car, out, left)?;
            if !written {
                return Ok(false);
            }
            let behind = part_of(names, store, cdr);
            write_chain(alloc, names, store, BLANK, behind, out, left)
        }
        end => {
            out.append(b" . ")?;
            write_part(alloc, names, store, end, out, left)
        }
    }
}
