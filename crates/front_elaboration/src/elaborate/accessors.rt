// The procedures of slots' methods, which read a slot, write it or ask whether it is bound (ISO/IEC 13816:2007, 15.1.2).

ghost use Rattle.std.specs.Prelude.{◌≡◌, ◌∷◌, [], ◌+◌, IfOk};
ghost use Rattle.lang_meaning.specs.Form.{Form, local, sequence, form_and, no_form};
ghost use Rattle.lang_meaning.specs.model.View.{forms};
ghost use Rattle.front_profile.specs.Elaborations.{two_forms, place_form, accessor_form, accessor_variables, accessor_procedure};

use crate::elaborate::finish::one_more;
use base::{Name, NoMemory};
use front_profile::Accessor;
use lang_meaning::{Core, CoreForm, CoreList, LiteralId, Primitive, Procedure, Var, VarList};
use std::alloc::Global;

// One form alone.
fn one_form(alloc: Global, form: Core) -> Result<CoreList, NoMemory>
    ensures { IfOk result (λ list. list ≡ form ∷ []) }
{
    let mut list = CoreList::new(alloc);
    list.push(form)?;
    Ok(list)
}

/// The variable, and these forms behind it.
pub(crate) fn variable_and(alloc: Global, var: Var, forms: CoreList) -> Result<CoreList, NoMemory>
    ensures { IfOk result (λ list. list ≡ local var ∷ forms) }
{
    let Ok(mut list) = one_form(alloc, Core::new(CoreForm::Local(var))) else {
        drop(forms);
        return Err(NoMemory);
    };
    list.append_list(forms)?;
    Ok(list)
}

// The place of the slot of that name, behind the instance.
fn instance_and_place(alloc: Global, instance: Var, name: LiteralId) -> Result<CoreList, NoMemory>
    ensures { IfOk result (λ list. forms list ≡ two_forms (local instance) (place_form instance name)) }
{
    let named = variable_and(alloc, instance, one_form(alloc, Core::literal(name))?)?;
    let place = one_form(alloc, Core::prim(Primitive::SlotPlace, named))?;
    variable_and(alloc, instance, place)
}

// The new value, and what `instance_and_place` has for the variable behind it.
fn value_and_place(alloc: Global, value: Var, name: LiteralId) -> Result<CoreList, NoMemory>
    ensures { IfOk result (λ list. forms list
        ≡ form_and (local value) (two_forms (local (value + 1)) (place_form (value + 1) name))) }
{
    let instance = one_more(value)?;
    variable_and(alloc, value, instance_and_place(alloc, instance, name)?)
}

fn accessor_form(alloc: Global, kind: Accessor, var: Var, name: LiteralId) -> Result<Core, NoMemory>
    ensures { IfOk result (λ core. core ≡ accessor_form kind var name) }
{
    match kind {
        Accessor::Reads => Ok(Core::prim(
            Primitive::SlotRef,
            instance_and_place(alloc, var, name)?,
        )),
        Accessor::Writes => Ok(Core::prim(Primitive::SlotSet, value_and_place(alloc, var, name)?)),
        Accessor::Asks => Ok(Core::prim(
            Primitive::SlotBound,
            instance_and_place(alloc, var, name)?,
        )),
    }
}

fn accessor_variables(alloc: Global, kind: Accessor, var: Var) -> Result<VarList, NoMemory>
    ensures { IfOk result (λ list. list ≡ accessor_variables kind var) }
{
    let mut list = VarList::new(alloc);
    list.push(var)?;
    match kind {
        Accessor::Reads | Accessor::Asks => Ok(list),
        Accessor::Writes => {
            list.push(one_more(var)?)?;
            Ok(list)
        }
    }
}

// The form in a sequence alone.
fn accessor_body(alloc: Global, kind: Accessor, var: Var, name: LiteralId) -> Result<Core, NoMemory>
    ensures { IfOk result (λ core. core ≡ sequence (form_and (accessor_form kind var name) no_form)) }
{
    let form = accessor_form(alloc, kind, var, name)?;
    Ok(Core::sequence(one_form(alloc, form)?))
}

/// The procedure of a slot's method of that name: its variables are that one and, of a writer, the next one, and the
/// slot's name is that literal.
pub(crate) fn accessor_procedure(
    alloc: Global,
    name: Name,
    kind: Accessor,
    var: Var,
    literal: LiteralId,
) -> Result<Procedure, NoMemory>
    ensures { IfOk result (λ procedure. procedure ≡ accessor_procedure name kind var literal) }
{
    let required = accessor_variables(alloc, kind, var)?;
    let body = accessor_body(alloc, kind, var, literal)?;
    Ok(Procedure {
        name: Some(name),
        required,
        rest: None,
        body,
    })
}
