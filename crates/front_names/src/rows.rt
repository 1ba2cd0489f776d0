// Whether the names of a program's rows are below a number.

ghost use Rattle.std.specs.Prelude.{◌≡◌, ◌↔◌, IsTrue};
ghost use Rattle.std.specs.List.{list_all};
ghost use Rattle.front_profile.specs.ProgramNames.{NamesIn};
ghost use Rattle.lang_meaning.specs.declared.program.GenericRow.{GenericRow as generic};
ghost use Rattle.lang_meaning.specs.declared.program.FunctionRow.{FunctionRow as function};
ghost use Rattle.front_names.specs.Tests.{is_name_below, is_maybe_below, is_form_below, is_literal_below};
ghost use Rattle.front_names.specs.Tests.{is_procedure_below, is_slot_below, is_class_below, are_rows_below};

use crate::data::is_datum_below;
use crate::forms::is_form_below;
use base::{Name, NameList};
use lang_meaning::{
    ClassRow, ClassRows, CoreList, FunctionRows, GenericRows, LiteralRow, LiteralRows, Procedure,
    ProcedureList, Program, ProgramRows, SlotRow, SlotRows,
};

/// Whether all names of a program are in a table of so many: those of its rows, of its literals, and of all its forms,
/// reached or not. Takes no memory but stack, as deep as forms or data stand inside one another.
pub fn are_names_below(program: &Program, count: usize) -> bool
    ensures { IsTrue result ↔ NamesIn count program.now }
{
    are_rows_below(program.rows(), count)
}

fn are_rows_below(rows: &ProgramRows, count: usize) -> bool
    ensures { result ≡ are_rows_below count rows.now }
{
    are_literals_below(&rows.literals, count)
        && are_procedures_below(&rows.procedures, count)
        && are_classes_below(&rows.classes, count)
        && are_generics_below(&rows.generics, count)
        && are_functions_below(&rows.functions, count)
        && are_mains_below(&rows.main, count)
}

fn are_literals_below(literals: &LiteralRows, count: usize) -> bool
    ensures { result ≡ list_all (is_literal_below count) literals.now }
{
    let literals = literals.as_slice();
    literals.iter().all(|row| is_literal_below(row, count))
}

fn is_literal_below(literal: &LiteralRow, count: usize) -> bool
    ensures { result ≡ is_literal_below count literal.now }
{
    match literal {
        LiteralRow::Datum(datum) => is_datum_below(datum, count),
        LiteralRow::Class(_) => true,
        LiteralRow::Function(name) => name.0 < count,
    }
}

fn are_procedures_below(procedures: &ProcedureList, count: usize) -> bool
    ensures { result ≡ list_all (is_procedure_below count) procedures.now }
{
    let procedures = procedures.as_slice();
    procedures.iter().all(|row| is_procedure_below(row, count))
}

fn is_procedure_below(procedure: &Procedure, count: usize) -> bool
    ensures { result ≡ is_procedure_below count procedure.now }
{
    is_maybe_below(procedure.name, count) && is_form_below(&procedure.body, count)
}

fn is_maybe_below(name: Option<Name>, count: usize) -> bool
    ensures { result ≡ is_maybe_below count name }
{
    match name {
        None => true,
        Some(name) => name.0 < count,
    }
}

fn are_classes_below(classes: &ClassRows, count: usize) -> bool
    ensures { result ≡ list_all (is_class_below count) classes.now }
{
    let classes = classes.as_slice();
    classes.iter().all(|row| is_class_below(row, count))
}

fn is_class_below(class: &ClassRow, count: usize) -> bool
    ensures { result ≡ is_class_below count class.now }
{
    class.name.0 < count && are_slots_below(&class.slots, count)
}

fn are_slots_below(slots: &SlotRows, count: usize) -> bool
    ensures { result ≡ list_all (is_slot_below count) slots.now }
{
    let slots = slots.as_slice();
    slots.iter().all(|row| is_slot_below(row, count))
}

fn is_slot_below(slot: &SlotRow, count: usize) -> bool
    ensures { result ≡ is_slot_below count slot.now }
{
    slot.name.0 < count && are_listed_below(&slot.initargs, count)
}

fn are_listed_below(names: &NameList, count: usize) -> bool
    ensures { result ≡ list_all (is_name_below count) names.now }
{
    names.as_slice().iter().all(|name| name.0 < count)
}

fn are_generics_below(generics: &GenericRows, count: usize) -> bool
    ensures { result ≡ list_all (λ (g : generic). is_name_below count g.name) generics.now }
{
    generics.as_slice().iter().all(|row| row.name.0 < count)
}

fn are_functions_below(functions: &FunctionRows, count: usize) -> bool
    ensures { result ≡ list_all (λ (f : function). is_name_below count f.name) functions.now }
{
    functions.as_slice().iter().all(|row| row.name.0 < count)
}

fn are_mains_below(forms: &CoreList, count: usize) -> bool
    ensures { result ≡ list_all (is_form_below count) forms.now }
{
    let forms = forms.as_slice();
    forms.iter().all(|form| is_form_below(form, count))
}
