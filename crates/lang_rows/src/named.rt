// The function of each name. Names are told apart by numbers, so the functions are gone through once, the last one first: of functions with the
// same name the first one counts.

ghost use Rattle.std.specs.Prelude.{◌≡◌, ◌+◌, ◌≢◌, ◌↔◌, [], None, IfOk, IsTrue, length, slice_index_or};
ghost use Rattle.base.specs.Names.{IsTable};
ghost use Rattle.lang_meaning.specs.Lookup.{text};
ghost use Rattle.lang_rows.specs.Numbered.{IsNumber, AreNumbered, IsNoted, AreOfNames};

use base::{ItemList, Name, Names, NoMemory};
use lang_meaning::{FunctionRow, FunctionRows};
use std::alloc::Global;

/// Rows of functions, by numbers.
pub type RowList = ItemList<Option<FunctionRow>>;

/// The functions of names, by their numbers.
#[tactic(auto, using(crate::proofs::Numbering::no_function_yet))]
pub fn rows_by_numbers(
    alloc: Global,
    names: &Names,
    functions: &FunctionRows,
) -> Result<RowList, NoMemory>
    ensures { IfOk result (λ rows. AreNumbered names.now functions.now rows) }
{
    let mut rows = no_rows(alloc, names)?;
    for at in (0..functions.len()).rev() {
        let Some(function) = functions.get(at) else {
            unreachable!()
        };
        note(names, &mut rows, *function);
    }
    Ok(rows)
}

// No name has a function.
#[tactic(auto, using(crate::proofs::Filling::none_there, crate::proofs::Filling::one_more, crate::proofs::Numbering::none_noted))]
fn no_rows(alloc: Global, names: &Names) -> Result<RowList, NoMemory>
    ensures { IfOk result (λ rows. AreNumbered names.now [] rows) }
{
    let mut rows = RowList::new(alloc);
    for _number in 0..names.len() {
        rows.push(None)?;
    }
    rows.push(None)?;
    Ok(rows)
}

// The function of its name, before all that were noted.
#[tactic(auto, using(crate::proofs::Numbering::number_inside, crate::proofs::Numbering::one_noted))]
fn note(names: &Names, rows: &mut RowList, function: FunctionRow)
    requires { length rows.old ≡ length names.now + 1 }
    ensures { IsNoted names.now function rows.old rows.new }
{
    let number = number_of(names, function.name);
    rows.replace(number, Some(function));
}

/// The function of each name of the table.
#[tactic(auto, using(crate::proofs::Numbering::no_name_yet, crate::proofs::Numbering::name_more))]
pub fn rows_of_names(alloc: Global, names: &Names, numbered: &RowList) -> Result<RowList, NoMemory>
    ensures { IfOk result (λ rows. AreOfNames names.now numbered.now (length names.now) rows) }
{
    let mut rows = RowList::new(alloc);
    for number in 0..names.len() {
        rows.push(row_at(numbered, number_of(names, Name(number))))?;
    }
    Ok(rows)
}

/// What stands under a number.
pub fn row_at(rows: &RowList, number: usize) -> Option<FunctionRow>
    ensures { result ≡ slice_index_or rows.now number None }
{
    match rows.get(number) {
        Some(row) => *row,
        None => None,
    }
}

/// The number of a name: its own, or that behind the table where it has the empty text.
pub fn number_of(names: &Names, name: Name) -> usize
    ensures number { IsNumber names.now name.0 result }
    ensures table { IsTable names.now }
{
    let count = names.len();
    if is_blank(names, name) { count } else { name.0 }
}

// Whether a name has the empty text.
fn is_blank(names: &Names, name: Name) -> bool
    ensures { IsTrue result ↔ (text names.now name.0 ≡ []) }
{
    match names.text(name) {
        Some(text) => text.is_empty(),
        None => true,
    }
}
