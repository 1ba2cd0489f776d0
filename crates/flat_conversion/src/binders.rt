// The binders of a program, in the order in which the walk over it meets them: a walk of its own, which takes time in proportion.

ghost use Rattle.std.specs.Prelude.{◌≡◌, ◌<◌, ◌++◌, List, [], length, false, OnOk, IfOk};
ghost use Rattle.lang_meaning.specs.Captured.{sets_itself};
ghost use Rattle.lang_meaning.specs.Form.{let_form, lambda};
ghost use Rattle.lang_meaning.specs.model.View.{bindings_of};
ghost use Rattle.flat_conversion.specs.Marks.{Adds};
ghost use Rattle.flat_conversion.specs.declared.variables.Binder.{Binder as ABinder};
ghost use Rattle.flat_conversion.specs.Binders.{binders_of_procedures, binders_of_mains};
ghost use Rattle.flat_conversion.specs.Listing.{BindsNothing, IsBinding, Lists, ListsAll, ListsBody};

use crate::marks::Marks;
use crate::variables::{Binder, BinderList, NewVariables, bound, parameters};
use base::NoMemory;
use lang_meaning::{
    BindingList, CaptureList, Core, CoreForm, CoreList, ProcedureList, ProgramRows, Subforms, Var,
    VarList,
};
use std::alloc::Global;

// The binders of all procedures and then of the main forms.
pub(crate) fn binders_of_program(alloc: Global, rows: &ProgramRows) -> Result<BinderList, NoMemory>
    ensures { IfOk result (λ made. made ≡ binders_of_procedures rows.now.procedures (binders_of_mains rows.now.main [])) }
{
    let mut made = BinderList::new(alloc);
    list_procedures(alloc, &mut made, &rows.procedures)?;
    list_mains(alloc, &mut made, &rows.main)?;
    Ok(made)
}

fn list_procedures(
    alloc: Global,
    made: &mut BinderList,
    list: &ProcedureList,
) -> Result<(), NoMemory>
    ensures { OnOk result ((rest : List ABinder) → made.new ++ rest ≡ made.old ++ binders_of_procedures list.now rest) }
{
    for at in 0..list.len() {
        let Some(row) = list.get(at) else {
            unreachable!()
        };
        let number = made.len();
        made.push(reserved(alloc))?;
        let variables = parameters(alloc, &row.required, row.rest)?;
        drop(list_body(alloc, made, number, variables, &row.body)?);
    }
    Ok(())
}

fn list_mains(alloc: Global, made: &mut BinderList, list: &CoreList) -> Result<(), NoMemory>
    ensures { OnOk result ((rest : List ABinder) → made.new ++ rest ≡ made.old ++ binders_of_mains list.now rest) }
{
    for at in 0..list.len() {
        let Some(form) = list.get(at) else {
            unreachable!()
        };
        let mut marks = Marks::new(alloc);
        list_form(alloc, made, &mut marks, form)?;
    }
    Ok(())
}

// The binders of the form are put behind those that are there, and its marks are added.
#[cycle(list_form)]
fn list_form(
    alloc: Global,
    made: &mut BinderList,
    marks: &mut Marks,
    form: &Core,
) -> Result<(), NoMemory>
    ensures { OnOk result (Lists form.now made.old made.new marks.old marks.new) }
{
    match binding_of(form) {
        Binding::Nothing => list_plain(alloc, made, marks, form),
        Binding::Variables(list, body) => list_let(alloc, made, marks, form, list, body),
        Binding::Function(required, rest, body, parts) => {
            list_function(alloc, made, marks, required, rest, body, parts)
        }
    }
}

#[cycle(list_form)]
fn list_all(
    alloc: Global,
    made: &mut BinderList,
    marks: &mut Marks,
    forms: Subforms<'_>,
) -> Result<(), NoMemory>
    ensures { OnOk result (ListsAll forms.entry made.old made.new marks.old marks.new) }
{
    for form in forms {
        list_form(alloc, made, marks, form)?;
    }
    Ok(())
}

// A form that binds no variables.
#[cycle(list_form)]
#[tactic(auto, using(lang_meaning::specs::bridge::Smaller::outer_is_smaller, lang_meaning::specs::bridge::Smaller::inner_is_smaller))]
fn list_plain(
    alloc: Global,
    made: &mut BinderList,
    marks: &mut Marks,
    form: &Core,
) -> Result<(), NoMemory>
    requires { BindsNothing form.now }
    ensures { OnOk result (Lists form.now made.old made.new marks.old marks.new) }
{
    set_itself(marks, form)?;
    list_all(alloc, made, marks, form.outer())?;
    list_all(alloc, made, marks, form.inner())?;
    Ok(())
}

// The variable that the form itself sets.
#[tactic(auto, using(crate::proofs::Marking::unmarked))]
fn set_itself(marks: &mut Marks, form: &Core) -> Result<(), NoMemory>
    ensures { OnOk result (Adds marks.old marks.new (λ v. sets_itself v form.now) (λ v. false) false) }
{
    match &form.form {
        CoreForm::SetLocal(var, _) => marks.set(*var),
        _ => Ok(()),
    }
}

// A form that binds variables in its body: the values first, as the walk meets them.
#[cycle(list_form)]
#[tactic(auto, using(lang_meaning::specs::bridge::Smaller::outer_is_smaller))]
fn list_let(
    alloc: Global,
    made: &mut BinderList,
    marks: &mut Marks,
    form: &Core,
    list: &BindingList,
    body: &Core,
) -> Result<(), NoMemory>
    requires { form.now ≡ let_form (bindings_of list.now) body.now }
    ensures { OnOk result (Lists form.now made.old made.new marks.old marks.new) }
{
    let number = made.len();
    made.push(reserved(alloc))?;
    list_all(alloc, made, marks, form.outer())?;
    let variables = bound(alloc, list)?;
    let inside = list_body(alloc, made, number, variables, body)?;
    marks.join(inside)?;
    Ok(())
}

// A function: what is captured inside it is captured by it alone.
#[cycle(list_form)]
fn list_function(
    alloc: Global,
    made: &mut BinderList,
    marks: &mut Marks,
    required: &VarList,
    rest: Option<Var>,
    body: &Core,
    parts: &CaptureList,
) -> Result<(), NoMemory>
    ensures { OnOk result (Lists (lambda required.now rest body.now parts.now) made.old made.new marks.old marks.new) }
{
    let number = made.len();
    made.push(reserved(alloc))?;
    let variables = parameters(alloc, required, rest)?;
    let inside = list_body(alloc, made, number, variables, body)?;
    marks.join_set(inside)?;
    marks.capture(parts)?;
    Ok(())
}

// A body: its binder is put in the place that was reserved for it. Gives the marks of what is around it.
#[cycle(list_form)]
fn list_body(
    alloc: Global,
    made: &mut BinderList,
    number: usize,
    variables: VarList,
    body: &Core,
) -> Result<Marks, NoMemory>
    requires { number < length made.old }
    ensures { IfOk result (λ marks. ListsBody variables body.now number made.old made.new marks) }
{
    let mut marks = Marks::new(alloc);
    list_form(alloc, made, &mut marks, body)?;
    drop(made.replace(number, marks.binder(alloc, &variables)?));
    marks.forget(&variables);
    Ok(marks)
}

// What stands in the place of a binder until its body has been walked.
fn reserved(alloc: Global) -> Binder {
    Binder {
        variables: NewVariables::new(alloc),
        keeps_method: false,
    }
}

// What a form binds.
#[derive(Clone, Copy)]
enum Binding<'a> {
    Nothing,
    Variables(&'a BindingList, &'a Core),
    Function(&'a VarList, Option<Var>, &'a Core, &'a CaptureList),
}

fn binding_of(form: &Core) -> Binding<'_>
    ensures { IsBinding form.now result }
{
    match &form.form {
        CoreForm::Let(list, body) => Binding::Variables(list, body),
        CoreForm::Lambda(required, rest, body, parts) => {
            Binding::Function(required, *rest, body, parts)
        }
        _ => Binding::Nothing,
    }
}
