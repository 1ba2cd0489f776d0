// What is known of forms when code is written: which arguments of a primitive are integers, and which tests are true.

ghost use Rattle.std.specs.Prelude.{◌≡◌, ◌++◌, ◌+◌, ◌<◌, ◌^◌, length, drop, OnOk, IfOk};
ghost use Rattle.flat_language.specs.model.View.{forms};
ghost use Rattle.back_lowering.specs.Codes as codes;
ghost use Rattle.back_lowering.specs.Primitives as primitives;
ghost use Rattle.back_leaves.specs.Asks.{asked_one};
ghost use Rattle.std.specs.Prelude.{slice_get};
ghost use Rattle.back_lowering.specs.Placement.{literal_word};

use back_lowering::Placement;
use base::NoMemory;
use flat_language::{FlatCore, FlatCoreForm, FlatCoreList};
use lang_meaning::{LiteralId, LiteralRow, LiteralRows};
use mid_arena::words::NIL;
use mid_code::{Register, RegisterList};
use std::alloc::Global;

/// The word of a literal.
pub fn literal_word(at: &Placement, number: LiteralId) -> u32
    ensures { result ≡ literal_word at.now number }
{
    match at.literals.get(number) {
        Some(word) => *word,
        None => NIL,
    }
}

// The word of an integer that a literal is.
fn integer_in(at: &Placement, literals: &LiteralRows, number: LiteralId) -> Option<u32>
    ensures { result ≡ primitives.integer_in at.now number (slice_get literals.now number) }
{
    match literals.get(number) {
        Some(LiteralRow::Datum(_)) => {
            let word = literal_word(at, number);
            if word % 4 == 0 { Some(word) } else { None }
        }
        Some(LiteralRow::Class(_)) => None,
        Some(LiteralRow::Function(_)) => None,
        None => None,
    }
}

/// The word of the integer that a form is known to be.
pub fn known_integer(at: &Placement, literals: &LiteralRows, form: &FlatCore) -> Option<u32>
    ensures { result ≡ primitives.known_integer at.now literals.now form.now }
{
    match &form.form {
        FlatCoreForm::Literal(number) => integer_in(at, literals, *number),
        _ => None,
    }
}

// Whether a literal is true, where it is a datum.
fn truth_in(at: &Placement, literals: &LiteralRows, number: LiteralId) -> Option<bool>
    ensures { result ≡ codes.truth_in at.now number (slice_get literals.now number) }
{
    match literals.get(number) {
        Some(LiteralRow::Datum(_)) => Some(literal_word(at, number) != NIL),
        Some(LiteralRow::Class(_)) => None,
        Some(LiteralRow::Function(_)) => None,
        None => None,
    }
}

/// Whether a form is true, where that is known when its code is written.
pub fn known_truth(at: &Placement, literals: &LiteralRows, form: &FlatCore) -> Option<bool>
    ensures { result ≡ codes.known_truth at.now literals.now form.now }
{
    match &form.form {
        FlatCoreForm::Literal(number) => truth_in(at, literals, *number),
        _ => None,
    }
}

/// The second of two arguments, where it is known.
pub fn second_known(at: &Placement, literals: &LiteralRows, list: &FlatCoreList) -> Option<u32>
    ensures { result ≡ primitives.second_known at.now literals.now (forms list.now) }
{
    match list.get(1) {
        Some(form) => known_integer(at, literals, form),
        None => None,
    }
}

// The register of an argument, where it is not known.
fn ask(made: &mut RegisterList, known: Option<u32>, register: Register) -> Result<(), NoMemory>
    ensures { OnOk result (made.new ≡ made.old ++ asked_one known register) }
{
    match known {
        Some(_) => Ok(()),
        None => made.push(register),
    }
}

/// The registers of those arguments, from one on, of which it is not known that they are integers, where the first is in d.
pub fn asked(
    alloc: Global,
    at: &Placement,
    literals: &LiteralRows,
    list: &FlatCoreList,
    from: usize,
    d: Register,
) -> Result<RegisterList, NoMemory>
    requires { d + length list.now < 2 ^ 62 }
    ensures { IfOk result (λ made. made ≡ primitives.asked_integers at.now literals.now (d + from) (forms (drop from list.now))) }
{
    let mut made = RegisterList::new(alloc);
    for i in from..list.len() {
        let Some(form) = list.get(i) else {
            unreachable!()
        };
        ask(&mut made, known_integer(at, literals, form), d + i)?;
    }
    Ok(made)
}
