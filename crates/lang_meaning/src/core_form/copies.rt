// Copies of core forms.

ghost use Rattle.std.specs.Prelude.{◌≡◌, IfOk};
ghost use Rattle.lang_meaning.specs.model.View.{view_form, maybe_form};
ghost use Rattle.lang_meaning.specs.Kinds.{IsOfOne, IsOfTwo, IsOfList, IsOfBody};

use crate::capture::CaptureList;
use crate::core_form::{
    Binding, BindingList, Clause, ClauseList, Core, CoreForm, CoreList, DynBinding, DynBindings,
};
use crate::program::VarList;
use base::NoMemory;
use std::alloc::Global;

impl Core {
    /// An equal form, with all forms inside; after `NoMemory` what was made of it is dropped.
    #[cycle(copy)]
    pub fn copy(&self, alloc: Global) -> Result<Core, NoMemory>
        ensures { IfOk result (λ copy. copy ≡ self.now) }
    {
        let form = form_copy(alloc, &self.form)?;
        Ok(Core { form })
    }
}

#[cycle(copy)]
fn form_copy(alloc: Global, form: &CoreForm) -> Result<CoreForm, NoMemory>
    ensures { IfOk result (λ copy. view_form copy ≡ view_form form.now) }
{
    match form {
        CoreForm::Literal(id) => Ok(CoreForm::Literal(*id)),
        CoreForm::Local(var) => Ok(CoreForm::Local(*var)),
        CoreForm::Global(name) => Ok(CoreForm::Global(*name)),
        CoreForm::Go(exit, segment) => Ok(CoreForm::Go(*exit, *segment)),
        CoreForm::Dynamic(name) => Ok(CoreForm::Dynamic(*name)),
        CoreForm::NextMethod => Ok(CoreForm::NextMethod),
        CoreForm::HasNext => Ok(CoreForm::HasNext),
        CoreForm::Clauses(list) => Ok(CoreForm::Clauses(clauses_copy(alloc, list)?)),
        CoreForm::SetLocal(_, _)
        | CoreForm::SetGlobal(_, _)
        | CoreForm::DefGlobal(_, _)
        | CoreForm::Block(_, _)
        | CoreForm::Return(_, _)
        | CoreForm::SetDynamic(_, _)
        | CoreForm::DefDynamic(_, _)
        | CoreForm::Sited(_, _) => copy_of_one(alloc, form),
        CoreForm::Apply(_, _)
        | CoreForm::While(_, _)
        | CoreForm::Catch(_, _)
        | CoreForm::Throw(_, _)
        | CoreForm::Unwind(_, _)
        | CoreForm::WithHandler(_, _)
        | CoreForm::Signal(_, _)
        | CoreForm::Continue(_, _) => copy_of_two(alloc, form),
        CoreForm::Sequence(_)
        | CoreForm::Call(_, _)
        | CoreForm::CallValue(_)
        | CoreForm::Prim(_, _)
        | CoreForm::Tagbody(_, _) => copy_of_list(alloc, form),
        CoreForm::Let(_, _) | CoreForm::Lambda(_, _, _, _) | CoreForm::DynamicLet(_, _) => {
            copy_of_body(alloc, form)
        }
    }
}

// A form with one form inside.
#[cycle(copy)]
fn copy_of_one(alloc: Global, form: &CoreForm) -> Result<CoreForm, NoMemory>
    requires { IsOfOne (view_form form.now) }
    ensures { IfOk result (λ copy. view_form copy ≡ view_form form.now) }
{
    match form {
        CoreForm::SetLocal(var, value) => Ok(CoreForm::SetLocal(*var, boxed(alloc, value)?)),
        CoreForm::SetGlobal(name, value) => Ok(CoreForm::SetGlobal(*name, boxed(alloc, value)?)),
        CoreForm::DefGlobal(name, value) => Ok(CoreForm::DefGlobal(*name, boxed(alloc, value)?)),
        CoreForm::Block(exit, body) => Ok(CoreForm::Block(*exit, boxed(alloc, body)?)),
        CoreForm::Return(exit, value) => Ok(CoreForm::Return(*exit, boxed(alloc, value)?)),
        CoreForm::SetDynamic(name, value) => Ok(CoreForm::SetDynamic(*name, boxed(alloc, value)?)),
        CoreForm::DefDynamic(name, value) => Ok(CoreForm::DefDynamic(*name, boxed(alloc, value)?)),
        CoreForm::Sited(site, inner) => Ok(CoreForm::Sited(*site, boxed(alloc, inner)?)),
        _ => unreachable!(),
    }
}

// A form with two forms inside.
#[cycle(copy)]
fn copy_of_two(alloc: Global, form: &CoreForm) -> Result<CoreForm, NoMemory>
    requires { IsOfTwo (view_form form.now) }
    ensures { IfOk result (λ copy. view_form copy ≡ view_form form.now) }
{
    match form {
        CoreForm::Apply(first, second) => {
            let (first, second) = both(alloc, first, second)?;
            Ok(CoreForm::Apply(first, second))
        }
        CoreForm::While(test, body) => {
            let (test, body) = both(alloc, test, body)?;
            Ok(CoreForm::While(test, body))
        }
        CoreForm::Catch(tag, body) => {
            let (tag, body) = both(alloc, tag, body)?;
            Ok(CoreForm::Catch(tag, body))
        }
        CoreForm::Throw(tag, value) => {
            let (tag, value) = both(alloc, tag, value)?;
            Ok(CoreForm::Throw(tag, value))
        }
        CoreForm::Unwind(form, cleanup) => {
            let (form, cleanup) = both(alloc, form, cleanup)?;
            Ok(CoreForm::Unwind(form, cleanup))
        }
        CoreForm::WithHandler(handler, body) => {
            let (handler, body) = both(alloc, handler, body)?;
            Ok(CoreForm::WithHandler(handler, body))
        }
        CoreForm::Signal(condition, mark) => {
            let (condition, mark) = both(alloc, condition, mark)?;
            Ok(CoreForm::Signal(condition, mark))
        }
        CoreForm::Continue(condition, value) => {
            let (condition, value) = both(alloc, condition, value)?;
            Ok(CoreForm::Continue(condition, value))
        }
        _ => unreachable!(),
    }
}

// A form with a list of forms inside.
#[cycle(copy)]
fn copy_of_list(alloc: Global, form: &CoreForm) -> Result<CoreForm, NoMemory>
    requires { IsOfList (view_form form.now) }
    ensures { IfOk result (λ copy. view_form copy ≡ view_form form.now) }
{
    match form {
        CoreForm::Sequence(list) => Ok(CoreForm::Sequence(forms_copy(alloc, list)?)),
        CoreForm::Call(name, list) => Ok(CoreForm::Call(*name, forms_copy(alloc, list)?)),
        CoreForm::CallValue(list) => Ok(CoreForm::CallValue(forms_copy(alloc, list)?)),
        CoreForm::Prim(which, list) => Ok(CoreForm::Prim(*which, forms_copy(alloc, list)?)),
        CoreForm::Tagbody(exit, list) => Ok(CoreForm::Tagbody(*exit, forms_copy(alloc, list)?)),
        _ => unreachable!(),
    }
}

// A form that binds variables round a body.
#[cycle(copy)]
fn copy_of_body(alloc: Global, form: &CoreForm) -> Result<CoreForm, NoMemory>
    requires { IsOfBody (view_form form.now) }
    ensures { IfOk result (λ copy. view_form copy ≡ view_form form.now) }
{
    match form {
        CoreForm::Let(list, body) => {
            let list = bindings_copy(alloc, list)?;
            Ok(CoreForm::Let(list, boxed(alloc, body)?))
        }
        CoreForm::Lambda(required, rest, body, parts) => {
            let required = variables_copy(alloc, required)?;
            let parts = parts_copy(alloc, parts)?;
            let body = boxed(alloc, body)?;
            Ok(CoreForm::Lambda(required, *rest, body, parts))
        }
        CoreForm::DynamicLet(list, body) => {
            let list = dynamics_copy(alloc, list)?;
            Ok(CoreForm::DynamicLet(list, boxed(alloc, body)?))
        }
        _ => unreachable!(),
    }
}

#[cycle(copy)]
fn boxed(alloc: Global, form: &Core) -> Result<Box<Core>, NoMemory>
    ensures { IfOk result (λ copy. copy.value ≡ form.now) }
{
    Ok(Box::new(alloc, form.copy(alloc)?)?)
}

#[cycle(copy)]
fn both(alloc: Global, first: &Core, second: &Core) -> Result<(Box<Core>, Box<Core>), NoMemory>
    ensures { IfOk result (λ copies. (copies.0.value ≡ first.now) × (copies.1.value ≡ second.now)) }
{
    let first = boxed(alloc, first)?;
    Ok((first, boxed(alloc, second)?))
}

#[cycle(copy)]
#[tactic(auto, using(crate::specs::model::Sizes::form_in_smaller))]
fn forms_copy(alloc: Global, list: &CoreList) -> Result<CoreList, NoMemory>
    ensures { IfOk result (λ copy. copy ≡ list.now) }
{
    let mut copied = CoreList::new(alloc);
    for at in 0..list.len() {
        let Some(form) = list.get(at) else {
            unreachable!()
        };
        copied.push(form.copy(alloc)?)?;
    }
    Ok(copied)
}

#[cycle(copy)]
#[tactic(auto, using(crate::specs::model::Sizes::test_in_smaller, crate::specs::model::Sizes::body_in_smaller))]
fn clauses_copy(alloc: Global, list: &ClauseList) -> Result<ClauseList, NoMemory>
    ensures { IfOk result (λ copy. copy ≡ list.now) }
{
    let mut copied = ClauseList::new(alloc);
    for at in 0..list.len() {
        let Some(clause) = list.get(at) else {
            unreachable!()
        };
        let test = clause.test.copy(alloc)?;
        let Ok(body) = body_copy(alloc, &clause.body) else {
            drop(test);
            return Err(NoMemory);
        };
        copied.push(Clause { test, body })?;
    }
    Ok(copied)
}

#[cycle(copy)]
fn body_copy(alloc: Global, body: &Option<Core>) -> Result<Option<Core>, NoMemory>
    ensures { IfOk result (λ copy. copy ≡ body.now) }
{
    match body {
        None => Ok(None),
        Some(form) => Ok(Some(form.copy(alloc)?)),
    }
}

#[cycle(copy)]
#[tactic(auto, using(crate::specs::model::Sizes::binding_in_smaller))]
fn bindings_copy(alloc: Global, list: &BindingList) -> Result<BindingList, NoMemory>
    ensures { IfOk result (λ copy. copy ≡ list.now) }
{
    let mut copied = BindingList::new(alloc);
    for at in 0..list.len() {
        let Some(binding) = list.get(at) else {
            unreachable!()
        };
        let value = binding.value.copy(alloc)?;
        copied.push(Binding {
            var: binding.var,
            value,
        })?;
    }
    Ok(copied)
}

#[cycle(copy)]
#[tactic(auto, using(crate::specs::model::Sizes::dynamic_in_smaller))]
fn dynamics_copy(alloc: Global, list: &DynBindings) -> Result<DynBindings, NoMemory>
    ensures { IfOk result (λ copy. copy ≡ list.now) }
{
    let mut copied = DynBindings::new(alloc);
    for at in 0..list.len() {
        let Some(binding) = list.get(at) else {
            unreachable!()
        };
        let value = binding.value.copy(alloc)?;
        copied.push(DynBinding {
            name: binding.name,
            value,
        })?;
    }
    Ok(copied)
}

fn variables_copy(alloc: Global, list: &VarList) -> Result<VarList, NoMemory>
    ensures { IfOk result (λ copy. copy ≡ list.now) }
{
    let mut copied = VarList::new(alloc);
    for var in list.as_slice() {
        copied.push(*var)?;
    }
    Ok(copied)
}

fn parts_copy(alloc: Global, list: &CaptureList) -> Result<CaptureList, NoMemory>
    ensures { IfOk result (λ copy. copy ≡ list.now) }
{
    let mut copied = CaptureList::new(alloc);
    for part in list.as_slice() {
        copied.push(*part)?;
    }
    Ok(copied)
}
