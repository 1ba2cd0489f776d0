// The global variables that a program defines.

ghost use Rattle.std.specs.Prelude.{◌≡◌, ◌++◌, flat_map, option_to_list, IfOk, OnOk};
ghost use Rattle.lang_warnings.specs.Faults.{defined_by, defined_in, defined_globals};
ghost use Rattle.lang_warnings.specs.Known.{AreKept};

use crate::known::KeptNames;
use base::NoMemory;
use lang_meaning::{Core, CoreForm, CoreList, Subforms};
use std::alloc::Global;

/// The global variables that these main forms define, kept by the numbers of their names.
pub(crate) fn defined_globals(alloc: Global, main: &CoreList) -> Result<KeptNames, NoMemory>
    ensures { IfOk result (λ kept. AreKept (flat_map defined_in main.now) kept) }
{
    let mut numbers = Vec::new(alloc);
    for form in main.as_slice() {
        list_form(form, &mut numbers)?;
    }
    let kept = keep_all(alloc, numbers.as_slice())?;
    drop(numbers);
    Ok(kept)
}

// These numbers are kept.
fn keep_all(alloc: Global, numbers: &[usize]) -> Result<KeptNames, NoMemory>
    ensures { IfOk result (λ kept. AreKept numbers.now kept) }
{
    let mut kept = KeptNames::new(alloc);
    for number in numbers {
        kept.bind(*number, ())?;
    }
    Ok(kept)
}

// What a form defines is put behind the list, and what the forms inside it define.
#[cycle(form)]
#[tactic(auto, using(lang_meaning::specs::bridge::Smaller::outer_is_smaller, lang_meaning::specs::bridge::Smaller::inner_is_smaller))]
fn list_form(form: &Core, numbers: &mut Vec<usize>) -> Result<(), NoMemory>
    ensures { OnOk result (numbers.new.items ≡ numbers.old.items ++ defined_in form.now) }
{
    list_itself(form, numbers)?;
    list_forms(form.outer(), numbers)?;
    list_forms(form.inner(), numbers)
}

#[cycle(form)]
fn list_forms(forms: Subforms<'_>, numbers: &mut Vec<usize>) -> Result<(), NoMemory>
    ensures { OnOk result (numbers.new.items ≡ numbers.old.items ++ flat_map defined_in forms.entry) }
{
    for form in forms {
        list_form(form, numbers)?;
    }
    Ok(())
}

// What it defines itself.
fn list_itself(form: &Core, numbers: &mut Vec<usize>) -> Result<(), NoMemory>
    ensures { OnOk result (numbers.new.items ≡ numbers.old.items ++ option_to_list (defined_by form.now)) }
{
    if let CoreForm::DefGlobal(name, _) = &form.form {
        numbers.push(name.0)?;
    }
    Ok(())
}
