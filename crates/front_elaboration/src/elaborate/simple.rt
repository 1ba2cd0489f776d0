// Core forms of one form, of two, of a form and a body, and of a variable's call.

ghost use Rattle.std.specs.Prelude.{◌≡◌, IfOk};
ghost use Rattle.lang_meaning.specs.Form.{local, call_value, form_and};
ghost use Rattle.lang_meaning.specs.model.View as view;
ghost use Rattle.front_profile.specs.Elaborations.{nothing, leaf_form, one_of, two_of, make_one, make_two, make_with_body};

use crate::elaborate::accessors::variable_and;
use crate::elaborate::parts::boxed;
use crate::elaborate::queue::FormQueue;
use base::NoMemory;
use front_profile::{Leaf, One};
use lang_meaning::{Core, CoreForm, CoreList, OverTwo, Var};
use std::alloc::Global;

/// No forms.
pub(crate) fn nothing(alloc: Global) -> Core
    ensures { result ≡ nothing }
{
    Core::sequence(CoreList::new(alloc))
}

/// A form that has no parts.
pub(crate) fn leaf_form(alloc: Global, leaf: Leaf) -> Core
    ensures { result ≡ leaf_form leaf }
{
    match leaf {
        Leaf::Literal(id) => Core::literal(id),
        Leaf::Local(var) => Core::new(CoreForm::Local(var)),
        Leaf::Global(name) => Core::new(CoreForm::Global(name)),
        Leaf::Dynamic(name) => Core::new(CoreForm::Dynamic(name)),
        Leaf::Go(exit, segment) => Core::new(CoreForm::Go(exit, segment)),
        Leaf::NextMethod => Core::new(CoreForm::NextMethod),
        Leaf::HasNext => Core::new(CoreForm::HasNext),
        Leaf::Nothing => nothing(alloc),
    }
}

fn one_of(one: One, form: Box<Core>) -> Core
    ensures { result ≡ one_of one form.value }
{
    Core::new(match one {
        One::SetVariable(var) => CoreForm::SetLocal(var, form),
        One::SetGlobal(name) => CoreForm::SetGlobal(name, form),
        One::DefineGlobal(row) => CoreForm::DefGlobal(row.name, form),
        One::SetDynamic(name) => CoreForm::SetDynamic(name, form),
        One::DefineDynamic(row) => CoreForm::DefDynamic(row.name, form),
        One::ReturnTo(exit) => CoreForm::Return(exit, form),
    })
}

/// Of the first form.
pub(crate) fn make_one(alloc: Global, one: One, forms: CoreList) -> Result<Core, NoMemory>
    ensures { IfOk result (λ core. core ≡ make_one one forms) }
{
    let mut queue = FormQueue::new(forms);
    let Some(form) = queue.take() else {
        return Ok(nothing(alloc));
    };
    Ok(one_of(one, boxed(alloc, form)?))
}

fn two_of(kind: OverTwo, first: Box<Core>, second: Box<Core>) -> Core
    ensures { result ≡ two_of kind first.value second.value }
{
    Core::new(match kind {
        OverTwo::Apply => CoreForm::Apply(first, second),
        OverTwo::While => CoreForm::While(first, second),
        OverTwo::Catch => CoreForm::Catch(first, second),
        OverTwo::Throw => CoreForm::Throw(first, second),
        OverTwo::Unwind => CoreForm::Unwind(first, second),
        OverTwo::WithHandler => CoreForm::WithHandler(first, second),
        OverTwo::Signal => CoreForm::Signal(first, second),
        OverTwo::Continue => CoreForm::Continue(first, second),
    })
}

/// Of the first two forms.
pub(crate) fn make_two(alloc: Global, two: OverTwo, forms: CoreList) -> Result<Core, NoMemory>
    ensures { IfOk result (λ core. core ≡ make_two two forms) }
{
    let mut queue = FormQueue::new(forms);
    let Some(form) = queue.take() else {
        return Ok(nothing(alloc));
    };
    let Some(other) = queue.take() else {
        drop(form);
        return Ok(nothing(alloc));
    };
    let Ok(form) = boxed(alloc, form) else {
        drop(other);
        return Err(NoMemory);
    };
    let Ok(other) = boxed(alloc, other) else {
        drop(form);
        return Err(NoMemory);
    };
    Ok(two_of(two, form, other))
}

/// Of the first form, with those behind it as its body.
pub(crate) fn make_with_body(
    alloc: Global,
    with_body: OverTwo,
    forms: CoreList,
) -> Result<Core, NoMemory>
    ensures { IfOk result (λ core. core ≡ make_with_body with_body forms) }
{
    let mut queue = FormQueue::new(forms);
    let Some(form) = queue.take() else {
        return Ok(nothing(alloc));
    };
    let form = boxed(alloc, form)?;
    let Ok(forms) = queue.rest(alloc) else {
        drop(form);
        return Err(NoMemory);
    };
    let Ok(body) = boxed(alloc, Core::sequence(forms)) else {
        drop(form);
        return Err(NoMemory);
    };
    Ok(two_of(with_body, form, body))
}

/// The call of the function that is a variable's value.
pub(crate) fn call_of_local(alloc: Global, var: Var, forms: CoreList) -> Result<Core, NoMemory>
    ensures { IfOk result (λ core. core ≡ call_value (form_and (local var) (view.forms forms))) }
{
    Ok(Core::new(CoreForm::CallValue(variable_and(alloc, var, forms)?)))
}
