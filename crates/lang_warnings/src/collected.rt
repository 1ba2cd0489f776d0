// The warnings of forms, of all forms inside them, and of all forms of a program, in the order in which they stand there.

ghost use Rattle.std.specs.Prelude.{◌≡◌, ◌++◌, flat_map, option_to_list, OnOk};
ghost use Rattle.lang_meaning.specs.declared.program.Procedure.{Procedure as procedure};
ghost use Rattle.lang_warnings.specs.Known.{IsKnown};
ghost use Rattle.lang_warnings.specs.Warnings.{warning_of as warned, warnings_in, all_warnings};

use crate::faults::warning_of;
use crate::known::Known;
use crate::warning::Warning;
use base::NoMemory;
use lang_meaning::{Core, CoreList, ProcedureList, Subforms};

/// The warnings of a program are put behind the list.
pub(crate) fn add_program(known: &Known<'_>, list: &mut Vec<Warning>) -> Result<(), NoMemory>
    requires { IsKnown known.now }
    ensures { OnOk result (list.new.items ≡ list.old.items ++ all_warnings known.now.names.now known.now.program.now) }
{
    add_main(known, &known.program.main, list)?;
    add_procedures(known, &known.program.procedures, list)
}

fn add_main(known: &Known<'_>, main: &CoreList, list: &mut Vec<Warning>) -> Result<(), NoMemory>
    requires { IsKnown known.now }
    ensures { OnOk result (list.new.items ≡ list.old.items
        ++ flat_map (warnings_in known.now.names.now known.now.program.now) main.now) }
{
    for form in main.as_slice() {
        add_form(known, form, list)?;
    }
    Ok(())
}

fn add_procedures(
    known: &Known<'_>,
    procedures: &ProcedureList,
    list: &mut Vec<Warning>,
) -> Result<(), NoMemory>
    requires { IsKnown known.now }
    ensures { OnOk result (list.new.items ≡ list.old.items
        ++ flat_map (λ (p : procedure). warnings_in known.now.names.now known.now.program.now p.body) procedures.now) }
{
    for row in procedures.as_slice() {
        add_form(known, &row.body, list)?;
    }
    Ok(())
}

// Those of a form, and of all forms inside it.
#[cycle(form)]
#[tactic(auto, using(lang_meaning::specs::bridge::Smaller::outer_is_smaller, lang_meaning::specs::bridge::Smaller::inner_is_smaller))]
fn add_form(known: &Known<'_>, form: &Core, list: &mut Vec<Warning>) -> Result<(), NoMemory>
    requires { IsKnown known.now }
    ensures { OnOk result (list.new.items ≡ list.old.items
        ++ warnings_in known.now.names.now known.now.program.now form.now) }
{
    add_itself(known, form, list)?;
    add_forms(known, form.outer(), list)?;
    add_forms(known, form.inner(), list)
}

#[cycle(form)]
fn add_forms(
    known: &Known<'_>,
    forms: Subforms<'_>,
    list: &mut Vec<Warning>,
) -> Result<(), NoMemory>
    requires { IsKnown known.now }
    ensures { OnOk result (list.new.items ≡ list.old.items
        ++ flat_map (warnings_in known.now.names.now known.now.program.now) forms.entry) }
{
    for form in forms {
        add_form(known, form, list)?;
    }
    Ok(())
}

// That of the form itself, where there is one.
fn add_itself(known: &Known<'_>, form: &Core, list: &mut Vec<Warning>) -> Result<(), NoMemory>
    requires { IsKnown known.now }
    ensures { OnOk result (list.new.items ≡ list.old.items
        ++ option_to_list (warned known.now.names.now known.now.program.now form.now)) }
{
    if let Some(warning) = warning_of(known, form) {
        list.push(warning)?;
    }
    Ok(())
}
