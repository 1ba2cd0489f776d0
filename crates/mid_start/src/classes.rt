// Classes and streams: they stand in front of all other objects, and get their words when what these name is laid.

ghost use Rattle.std.specs.Prelude.{◌≡◌, ℕ, ◌+◌, ◌*◌, ◌^◌, ◌<◌, ◌≤◌, List, [], ◌∷◌, ◌++◌, Some, length, OnOk, IfOk, slice_get};
ghost use Rattle.std.specs.List.{sum_by};
ghost use Rattle.lang_meaning.specs.declared.program.ProgramRows.{ProgramRows};
ghost use Rattle.lang_meaning.specs.declared.program.ClassRow.{ClassRow};
ghost use Rattle.lang_meaning.specs.Objects.{Object, class_object, input_stream, output_stream};
ghost use Rattle.mid_start.specs.Laying.{HasRoom};
ghost use Rattle.mid_start.specs.Making.{IsWithin};
ghost use Rattle.mid_start.specs.Rows.{ClassFits, most_class_words};
ghost use Rattle.mid_start.specs.Settling as settling;
ghost use Rattle.mid_start.specs.Settling.{truth_word, slot_words, precedence_words, class_heading, class_words, SlotsAreCounted, Settles, ClassGiven, ClassesSettle};

use crate::ArenaWords;
use crate::names::lay_name;
use crate::slots::SlotWordsList;
use base::{ItemList, Names, NoMemory, WordList};
use lang_meaning::{BUILT_IN_CLASSES, ClassId, ClassIds, ClassRow, ClassRows};
use mid_arena::words::{CLASS, INPUT, NIL, OBJECT, OUTPUT};
use std::alloc::Global;

// The class `<serious-condition>`.
const SERIOUS_CONDITION: ClassId = 18;

/// The standard input gets its word.
pub fn lay_input(words: &mut ArenaWords) -> Result<u32, NoMemory>
    requires room { HasRoom words.old 1 }
    ensures within { OnOk result (IsWithin words.old words.new 1) }
    ensures settles { IfOk result (λ w. (names : List (List ℕ)) (program : ProgramRows)
        → Settles names program input_stream (λ places. Unit {0}) words.old words.new w) }
{
    let word = words.end_address() + OBJECT;
    words.words.push(INPUT)?;
    Ok(word)
}

/// The standard output gets its word.
pub fn lay_output(words: &mut ArenaWords) -> Result<u32, NoMemory>
    requires room { HasRoom words.old 1 }
    ensures within { OnOk result (IsWithin words.old words.new 1) }
    ensures settles { IfOk result (λ w. (names : List (List ℕ)) (program : ProgramRows)
        → Settles names program output_stream (λ places. Unit {0}) words.old words.new w) }
{
    let word = words.end_address() + OBJECT;
    words.words.push(OUTPUT)?;
    Ok(word)
}

/// All classes get their words, with the words of their slots and that of the symbol t.
pub fn lay_classes(
    alloc: Global,
    rows: &ClassRows,
    slots: &ItemList<SlotWordsList>,
    truth: u32,
    names: &Names,
    words: &mut ArenaWords,
) -> Result<WordList, NoMemory>
    requires fits { (i : ℕ) (c : ClassRow) → slice_get rows.now i ≡ Some c → ClassFits (length names.now) (length rows.now) c }
    requires many { length rows.now < 2 ^ 28 }
    requires counted { SlotsAreCounted rows.now slots.now }
    requires room { HasRoom words.old (sum_by most_class_words rows.now) }
    ensures within { OnOk result (IsWithin words.old words.new (sum_by most_class_words rows.now)) }
    ensures many { IfOk result (λ ws. length ws ≡ length rows.now) }
    ensures settle { IfOk result (λ ws. (program : ProgramRows) → program.classes ≡ rows.now
        → ClassesSettle names.now program truth slots.now words.old words.new (length rows.now) ws) }
{
    let mut laid = WordList::new(alloc);
    for class in 0..rows.len() {
        let Some(row) = rows.get(class) else {
            unreachable!()
        };
        let Some(of_class) = slots.get(class) else {
            unreachable!()
        };
        let word = lay_class(alloc, class, row, of_class, truth, names, words)?;
        laid.push(word)?;
    }
    Ok(laid)
}

// A class gets its word.
fn lay_class(
    alloc: Global,
    class: ClassId,
    row: &ClassRow,
    slots: &SlotWordsList,
    truth: u32,
    names: &Names,
    words: &mut ArenaWords,
) -> Result<u32, NoMemory>
    requires fits { (count : ℕ) × (ClassFits (length names.now) count row.now × (count < 2 ^ 28)) }
    requires number { class < 2 ^ 28 }
    requires slots { length slots.now ≡ length row.now.slots }
    requires room { HasRoom words.old (most_class_words row.now) }
    ensures within { OnOk result (IsWithin words.old words.new (most_class_words row.now)) }
    ensures settles { IfOk result (λ w. (program : ProgramRows) → slice_get program.classes class ≡ Some row.now
        → Settles names.now program (class_object class) (ClassGiven names.now program class row.now truth slots.now) words.old words.new w) }
{
    let name = lay_name(alloc, row.name, names, words)?;
    let word = words.end_address() + OBJECT;
    push_heading(&mut words.words, class, name, truth, row)?;
    push_precedence(&mut words.words, &row.precedence)?;
    push_slots(&mut words.words, slots)?;
    Ok(word)
}

// What stands in front of the precedence list of a class.
fn push_heading(
    words: &mut WordList,
    class: ClassId,
    name: u32,
    truth: u32,
    row: &ClassRow,
) -> Result<(), NoMemory>
    requires number { class < 2 ^ 28 }
    requires above { length row.now.precedence < 2 ^ 28 }
    requires count { length row.now.slots < 2 ^ 28 }
    ensures { OnOk result (words.new ≡ words.old ++ class_heading class name truth row.now) }
{
    words.push(CLASS)?;
    words.push(4 * class as u32)?;
    words.push(name)?;
    words.push(truth_word(truth, can_be_made(class, row)))?;
    words.push(truth_word(truth, is_condition(row)))?;
    words.push(4 * row.precedence.len() as u32)?;
    words.push(4 * row.slots.len() as u32)
}

// The word of t, or that of nil.
fn truth_word(truth: u32, holds: bool) -> u32
    ensures { result ≡ truth_word truth holds }
{
    if holds { truth } else { NIL }
}

// Whether instances of the class are conditions.
fn is_condition(row: &ClassRow) -> bool
    ensures { result ≡ settling.is_condition row.now }
{
    row.precedence
        .as_slice()
        .iter()
        .any(|class| SERIOUS_CONDITION == *class)
}

fn can_be_made(class: ClassId, row: &ClassRow) -> bool
    ensures { result ≡ settling.can_be_made class row.now }
{
    !row.abstract_class && (BUILT_IN_CLASSES <= class || is_condition(row))
}

// The numbers of classes, as integers.
fn push_precedence(words: &mut WordList, classes: &ClassIds) -> Result<(), NoMemory>
    requires { (i d : ℕ) → slice_get classes.now i ≡ Some d → d < 2 ^ 28 }
    ensures { OnOk result (words.new ≡ words.old ++ precedence_words classes.now) }
{
    for at in 0..classes.len() {
        let Some(class) = classes.get(at) else {
            unreachable!()
        };
        words.push(4 * *class as u32)?;
    }
    Ok(())
}

// Three words for each slot.
fn push_slots(words: &mut WordList, slots: &SlotWordsList) -> Result<(), NoMemory>
    ensures { OnOk result (words.new ≡ words.old ++ slot_words slots.now) }
{
    for at in 0..slots.len() {
        let Some(slot) = slots.get(at) else {
            unreachable!()
        };
        words.push(slot.name)?;
        words.push(slot.initargs)?;
        words.push(slot.initform)?;
    }
    Ok(())
}
