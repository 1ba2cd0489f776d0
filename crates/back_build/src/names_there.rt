// Whether the names of a program's rows are in the table.

ghost use Rattle.std.specs.Prelude.{◌≡◌, ◌↔◌, ℕ, nat_lt, false, IsTrue, slice_get, Some, [], ◌∷◌, MatchOption, IfOk};
ghost use Rattle.std.specs.List.{list_all};
ghost use Rattle.base.specs.declared.datum.Name.{Name as name_of};
ghost use Rattle.mid_arena.specs.FixedWords.{nil_text};
ghost use Rattle.mid_start.specs.Rows.{NamesThere};
ghost use Rattle.back_build.specs.Named.{is_slot_named, is_class_named, is_literal_named};

use crate::data_below::is_below;
use base::{Name, NameList, Names, NoMemory};
use lang_meaning::{ClassRow, ClassRows, LiteralRow, LiteralRows, ProgramRows, SlotRow, SlotRows};

// Data are walked as deep as they are.
const DEPTH: u32 = u32::MAX;

/// The name of t, where it is in the table.
pub(crate) fn name_of_true(names: &Names) -> Option<Name>
    ensures { MatchOption result ((i : ℕ) → slice_get names.now i ≡ Some (116 ∷ []) → ⊥) (λ n. slice_get names.now n.0 ≡ Some (116 ∷ [])) }
{
    for number in 0..names.len() {
        if is_text(names, Name(number), b"t") {
            return Some(Name(number));
        }
    }
    None
}

fn is_text(names: &Names, name: Name, text: &[u8]) -> bool
    ensures here { IsTrue result → slice_get names.now name.0 ≡ Some text.now }
    ensures other { slice_get names.now name.0 ≡ Some text.now → IsTrue result }
{
    match names.text(name) {
        Some(found) => found == text,
        None => false,
    }
}

/// Whether the names of classes, slots and data are in the table, and none of its names has the text of nil; where a datum is 2^32 deep or more,
/// memory is wanting.
pub(crate) fn are_names_there(
    names: &Names,
    true_name: Name,
    rows: &ProgramRows,
) -> Result<bool, NoMemory>
    requires { slice_get names.now true_name.0 ≡ Some (116 ∷ []) }
    ensures { IfOk result (λ are. IsTrue are ↔ NamesThere names.now true_name rows.now) }
{
    let count = names.len();
    let has_none = has_no_nil(names);
    let classes = are_classes_named(&rows.classes, count);
    let literals = are_literals_named(&rows.literals, count)?;
    Ok(has_none && (classes && literals))
}

fn has_no_nil(names: &Names) -> bool
    ensures none { IsTrue result → (i : ℕ) → slice_get names.now i ≡ Some nil_text → ⊥ }
    ensures one { result ≡ false → (i : ℕ) × (slice_get names.now i ≡ Some nil_text) }
{
    for number in 0..names.len() {
        if is_text(names, Name(number), b"nil") {
            return false;
        }
    }
    true
}

fn are_classes_named(classes: &ClassRows, count: usize) -> bool
    ensures { result ≡ list_all (is_class_named count) classes.now }
{
    classes
        .as_slice()
        .iter()
        .all(|class| is_class_named(class, count))
}

fn is_class_named(class: &ClassRow, count: usize) -> bool
    ensures { result ≡ is_class_named count class.now }
{
    class.name.0 < count && are_slots_named(&class.slots, count)
}

fn are_slots_named(slots: &SlotRows, count: usize) -> bool
    ensures { result ≡ list_all (is_slot_named count) slots.now }
{
    slots
        .as_slice()
        .iter()
        .all(|slot| is_slot_named(slot, count))
}

fn is_slot_named(slot: &SlotRow, count: usize) -> bool
    ensures { result ≡ is_slot_named count slot.now }
{
    slot.name.0 < count && are_below(&slot.initargs, count)
}

fn are_below(list: &NameList, count: usize) -> bool
    ensures { result ≡ list_all (λ (a : name_of). nat_lt a.0 count) list.now }
{
    list.as_slice().iter().all(|name| name.0 < count)
}

fn are_literals_named(literals: &LiteralRows, count: usize) -> Result<bool, NoMemory>
    ensures { IfOk result (λ are. are ≡ list_all (is_literal_named count) literals.now) }
{
    for at in 0..literals.len() {
        let Some(literal) = literals.get(at) else {
            unreachable!()
        };
        let is = is_literal_named(literal, count)?;
        if !is {
            return Ok(false);
        }
    }
    Ok(true)
}

fn is_literal_named(literal: &LiteralRow, count: usize) -> Result<bool, NoMemory>
    ensures { IfOk result (λ is. is ≡ is_literal_named count literal.now) }
{
    match literal {
        LiteralRow::Datum(datum) => is_below(datum, count, DEPTH),
        LiteralRow::Class(_) => Ok(true),
        LiteralRow::Function(_) => Ok(true),
    }
}
