// A datum is taken out of words: part by part, each from the word that points to it.

ghost use Rattle.std.specs.Prelude.{◌≡◌, ◌+◌, ◌<◌, ◌≤◌, ℕ, OnOk, IfOk, IfErr};
ghost use Rattle.base.specs.declared.reason.Stop.TheVariants.{Refused};
ghost use Rattle.mid_taken.specs.declared.parts.Part.TheVariants.{Vector, Cons};
ghost use Rattle.mid_taken.specs.Parts.{part_size as size_of_part};
ghost use Rattle.mid_taken.specs.Taking.{StopsBy, PartTaken, PartFails, WordTaken, WordFails};

use crate::memory::{Memory, word_in};
use crate::parts::{Part, part_of, part_size};
use crate::strings::bytes_in;
use base::{Datum, DatumList, Kind, NoMemory, Reason, Refusal, Stop};
use std::alloc::Global;

/// The datum of a word, with so many levels that may open and so much left.
#[cycle(take)]
pub fn take_word(
    alloc: Global,
    from: &Memory,
    word: u32,
    deep: u32,
    left: &mut usize,
) -> Result<Datum, Stop>
    ensures takes { IfOk result (λ d. WordTaken from.now word deep left.old d left.new) }
    ensures stops { IfErr result (λ stop. StopsBy from.now.place (λ r. WordFails from.now word deep left.old r) stop) }
    ensures less { OnOk result (left.new < left.old) }
{
    let part = part_of(from, word);
    take_part(alloc, from, part, deep, left)
}

#[cycle(take)]
fn take_part(
    alloc: Global,
    from: &Memory,
    part: Part,
    deep: u32,
    left: &mut usize,
) -> Result<Datum, Stop>
    ensures takes { IfOk result (λ d. PartTaken from.now part deep left.old d left.new) }
    ensures stops { IfErr result (λ stop. StopsBy from.now.place (λ r. PartFails from.now part deep left.old r) stop) }
    ensures less { OnOk result (left.new < left.old) }
{
    spend(from, part, left)?;
    match part {
        Part::Int(number) => Ok(Datum::new(from.place, Kind::Int(number))),
        Part::Char(code) => Ok(Datum::new(from.place, Kind::Char(code))),
        Part::Sym(symbol) => Ok(Datum::new(from.place, Kind::Sym(symbol))),
        Part::Str { at, count } => {
            let bytes = bytes_in(alloc, from.words, at, count)?;
            Ok(Datum::new(from.place, Kind::Str(bytes)))
        }
        Part::Vector { at, count } => take_vector(alloc, from, at, count, deep, left),
        Part::Nil => Ok(Datum::new(from.place, Kind::Nil)),
        Part::Cons { car, cdr } => take_list(alloc, from, car, cdr, deep, left),
        Part::NoDatum => Err(refused(from, Reason::ExpansionNotForm)),
    }
}

// The elements one after another; what the vector itself takes is taken.
#[cycle(take)]
fn take_vector(
    alloc: Global,
    from: &Memory,
    at: u32,
    count: u32,
    deep: u32,
    left: &mut usize,
) -> Result<Datum, Stop>
    ensures takes { IfOk result (λ d. PartTaken from.now (Vector at count) deep (1 + left.old) d left.new) }
    ensures stops { IfErr result (λ stop. StopsBy from.now.place (λ r. PartFails from.now (Vector at count) deep (1 + left.old) r) stop) }
    ensures less { OnOk result (left.new ≤ left.old) }
{
    if deep == 0 {
        return Err(refused(from, Reason::ExpansionTooLarge));
    }
    let mut items = DatumList::new(alloc);
    for k in 0..count as usize {
        let word = word_in(from.words, at as usize + k);
        let item = take_word(alloc, from, word, deep - 1, left)?;
        items.push(item)?;
    }
    Ok(Datum::new(from.place, Kind::Vector(items)))
}

// The items from cons to cons, and then the end; what the list itself takes is taken.
#[cycle(take)]
fn take_list(
    alloc: Global,
    from: &Memory,
    car: u32,
    cdr: u32,
    deep: u32,
    left: &mut usize,
) -> Result<Datum, Stop>
    ensures takes { IfOk result (λ d. PartTaken from.now (Cons car cdr) deep (1 + left.old) d left.new) }
    ensures stops { IfErr result (λ stop. StopsBy from.now.place (λ r. PartFails from.now (Cons car cdr) deep (1 + left.old) r) stop) }
    ensures less { OnOk result (left.new ≤ left.old) }
{
    if deep == 0 {
        return Err(refused(from, Reason::ExpansionTooLarge));
    }
    let mut items = DatumList::new(alloc);
    let mut part = Part::Cons { car, cdr };
    'conses: loop {
        match part {
            Part::Cons { car, cdr } => {
                let item = take_word(alloc, from, car, deep - 1, left)?;
                items.push(item)?;
                part = part_of(from, cdr);
            }
            Part::Nil => return Ok(Datum::new(from.place, Kind::List { items, tail: None })),
            end => {
                let datum = take_part(alloc, from, end, deep - 1, left)?;
                let tail = boxed(alloc, datum)?;
                return Ok(Datum::new(
                    from.place,
                    Kind::List {
                        items,
                        tail: Some(tail),
                    },
                ));
            }
        }
    }
}

// A part takes its own size of what is left.
fn spend(from: &Memory, part: Part, left: &mut usize) -> Result<(), Stop>
    ensures ok { OnOk result (left.old ≡ size_of_part part + left.new) }
    ensures stops { IfErr result (λ stop. (deep : ℕ) → StopsBy from.now.place (λ r. PartFails from.now part deep left.old r) stop) }
{
    let size = part_size(part);
    if *left < size {
        return Err(refused(from, Reason::ExpansionTooLarge));
    }
    *left -= size;
    Ok(())
}

fn refused(from: &Memory, reason: Reason) -> Stop
    ensures { result ≡ Refused (record { place = from.now.place; reason = reason }) }
{
    Stop::Refused(Refusal {
        place: from.place,
        reason,
    })
}

fn boxed(alloc: Global, datum: Datum) -> Result<Box<Datum>, NoMemory>
    ensures { IfOk result (λ made. made.value ≡ datum) }
{
    Ok(Box::new(alloc, datum)?)
}
