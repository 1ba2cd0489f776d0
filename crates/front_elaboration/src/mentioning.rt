// What a form mentions, made of what the forms right inside it mention.

ghost use Rattle.std.specs.Prelude.{◌≡◌, Bool, not, ◌&&◌, ◌||◌, OnOk, IfOk, MatchOption};
ghost use Rattle.std.specs.List.{list_any};
ghost use Rattle.lang_meaning.specs.declared.capture.Capture.{Capture as APart};
ghost use Rattle.lang_meaning.specs.model.View.{bindings_of};
ghost use Rattle.lang_meaning.specs.Form.{parameters};
ghost use Rattle.lang_meaning.specs.Mentions.{owns, variables_bound, binds, names_part, mentions};
ghost use Rattle.front_elaboration.specs.Mentioned.{has, AreParts, own_part};

use crate::mentioned::Mentioned;
use base::NoMemory;
use lang_meaning::{BindingList, Capture, Core, CoreForm, Subforms, Var, VarList};
use std::alloc::Global;

// The part that the form itself names.
fn own_part(form: &Core) -> Option<Capture>
    ensures { result ≡ own_part form.now }
{
    match &form.form {
        CoreForm::Local(var) | CoreForm::SetLocal(var, _) => Some(Capture::Variable(*var)),
        CoreForm::Return(exit, _) | CoreForm::Go(exit, _) => Some(Capture::Exit(*exit)),
        CoreForm::NextMethod | CoreForm::HasNext => Some(Capture::Method),
        _ => None,
    }
}

// What bindings bind is none of them.
fn unbind_variables(list: &BindingList, inner: &mut Mentioned)
    ensures { AreParts inner.new (λ p. not (owns (variables_bound (bindings_of list.now)) p) && has inner.old p) }
{
    for binding in list.as_slice() {
        inner.remove(Capture::Variable(binding.var));
    }
}

// A function's own variables are none of them.
fn unbind_parameters(required: &VarList, rest: Option<Var>, inner: &mut Mentioned)
    ensures { AreParts inner.new (λ p. not (owns (parameters required.now rest) p) && has inner.old p) }
{
    inner.remove_variables(required.as_slice());
    if let Some(var) = rest {
        inner.remove(Capture::Variable(var));
    }
}

// What the form binds for its inner forms is none of them.
fn unbind(form: &Core, inner: &mut Mentioned)
    ensures { AreParts inner.new (λ p. not (binds p form.now) && has inner.old p) }
{
    match &form.form {
        CoreForm::Let(list, _) => unbind_variables(list, inner),
        CoreForm::Lambda(required, rest, _, _) => unbind_parameters(required, *rest, inner),
        CoreForm::Block(exit, _) | CoreForm::Tagbody(exit, _) => inner.remove(Capture::Exit(*exit)),
        _ => {}
    }
}

/// What the form mentions, where the forms right inside it mention these: those that stand where it stands, and those
/// where what it binds is bound.
pub(crate) fn gather(form: &Core, outer: Mentioned, inner: Mentioned) -> Result<Mentioned, NoMemory>
    ensures { IfOk result (λ all. AreParts all (λ p. names_part p form.now || has outer p || (not (binds p form.now) && has inner p))) }
{
    let mut all = outer;
    let mut inner = inner;
    unbind(form, &mut inner);
    all.add_some(own_part(form))?;
    all.join(inner)?;
    Ok(all)
}

/// What the form mentions, by a walk over all forms inside.
#[cycle(walk)]
#[tactic(auto, using(lang_meaning::specs::bridge::Smaller::outer_is_smaller, lang_meaning::specs::bridge::Smaller::inner_is_smaller))]
pub(crate) fn walk(alloc: Global, form: &Core) -> Result<Mentioned, NoMemory>
    ensures { IfOk result (λ all. AreParts all (λ p. mentions p form.now)) }
{
    let outer = walk_all(alloc, form.outer())?;
    let inner = walk_all(alloc, form.inner())?;
    gather(form, outer, inner)
}

#[cycle(walk)]
fn walk_all(alloc: Global, forms: Subforms<'_>) -> Result<Mentioned, NoMemory>
    ensures { IfOk result (λ all. AreParts all (λ p. list_any (mentions p) forms.entry)) }
{
    let mut all = Mentioned::new(alloc);
    for form in forms {
        all.join(walk(alloc, form)?)?;
    }
    Ok(all)
}
