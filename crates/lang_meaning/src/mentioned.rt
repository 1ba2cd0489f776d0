// What a form mentions of what is around it (ISO/IEC 13816:2007, 12.7).

ghost use Rattle.std.specs.Prelude.{◌≡◌, option_to_list};
ghost use Rattle.std.specs.List.{list_any};
ghost use Rattle.lang_meaning.specs.declared.capture.Capture.TheVariants.{Variable};
ghost use Rattle.lang_meaning.specs.model.View.{bindings_of};
ghost use Rattle.lang_meaning.specs.Form.{parameters};
ghost use Rattle.lang_meaning.specs.Mentions.{same_part, owns, variables_bound, binds, names_part, mentions};

use crate::capture::{Capture, Var, same_part};
use crate::core_form::{BindingList, Core, CoreForm, Subforms};
use crate::program::VarList;

/// Whether the form mentions the part and does not bind it inside. Takes no memory.
#[cycle(mentions)]
#[tactic(auto, using(crate::specs::bridge::Judged::mentions_folded, crate::specs::bridge::Smaller::outer_is_smaller, crate::specs::bridge::Smaller::inner_is_smaller))]
pub fn mentions(form: &Core, part: Capture) -> bool
    ensures { result ≡ mentions part form.now }
{
    names_part(form, part)
        || one_mentions(form.outer(), part)
        || (!binds(form, part) && one_mentions(form.inner(), part))
}

#[cycle(mentions)]
fn one_mentions(forms: Subforms<'_>, part: Capture) -> bool
    ensures { result ≡ list_any (mentions part) forms.entry }
{
    for form in forms {
        if mentions(form, part) {
            return true;
        }
    }
    false
}

// Whether the form names that part itself.
fn names_part(form: &Core, part: Capture) -> bool
    ensures { result ≡ names_part part form.now }
{
    match &form.form {
        CoreForm::Local(var) | CoreForm::SetLocal(var, _) => same_part(
            part,
            Capture::Variable(*var),
        ),
        CoreForm::Return(exit, _) | CoreForm::Go(exit, _) => same_part(part, Capture::Exit(*exit)),
        CoreForm::NextMethod | CoreForm::HasNext => same_part(part, Capture::Method),
        _ => false,
    }
}

// Whether the form binds that part for its inner forms.
fn binds(form: &Core, part: Capture) -> bool
    ensures { result ≡ binds part form.now }
{
    match &form.form {
        CoreForm::Let(list, _) => is_bound(list, part),
        CoreForm::Lambda(required, rest, _, _) => is_parameter(required, *rest, part),
        CoreForm::Block(exit, _) | CoreForm::Tagbody(exit, _) => {
            same_part(part, Capture::Exit(*exit))
        }
        _ => false,
    }
}

// Whether bindings bind the part.
fn is_bound(list: &BindingList, part: Capture) -> bool
    ensures { result ≡ owns (variables_bound (bindings_of list.now)) part }
{
    for binding in list.as_slice() {
        if same_part(part, Capture::Variable(binding.var)) {
            return true;
        }
    }
    false
}

// Whether the part is one of a function's own variables.
#[tactic(auto, using(crate::proofs::Joined::any_of_both))]
fn is_parameter(required: &VarList, rest: Option<Var>, part: Capture) -> bool
    ensures { result ≡ owns (parameters required.now rest) part }
{
    owns(required.as_slice(), part) || is_variable(rest, part)
}

/// Whether the part is one of the variables. Takes no memory.
pub fn owns(vars: &[Var], part: Capture) -> bool
    ensures { result ≡ owns vars.now part }
{
    vars.iter()
        .any(|var| same_part(part, Capture::Variable(*var)))
}

fn is_variable(var: Option<Var>, part: Capture) -> bool
    ensures { result ≡ list_any (λ v. same_part part (Variable v)) (option_to_list var) }
{
    match var {
        None => false,
        Some(var) => same_part(part, Capture::Variable(var)),
    }
}
