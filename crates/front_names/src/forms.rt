// Whether the names of a form, and of all forms inside it, are below a number.

ghost use Rattle.std.specs.Prelude.{◌≡◌, nat_lt};
ghost use Rattle.std.specs.List.{list_all};
ghost use Rattle.lang_meaning.specs.declared.core_form.DynBinding.{DynBinding as bound};
ghost use Rattle.front_names.specs.Tests.{are_own_below, is_form_below};

use lang_meaning::{Core, CoreForm, DynBindings, Subforms};

/// Whether all names of the form, and of all forms inside it, are below that number.
#[cycle(form)]
#[tactic(auto, using(lang_meaning::specs::bridge::Smaller::outer_is_smaller, lang_meaning::specs::bridge::Smaller::inner_is_smaller))]
pub(crate) fn is_form_below(form: &Core, count: usize) -> bool
    ensures { result ≡ is_form_below count form.now }
{
    are_own_below(form, count)
        && (are_forms_below(form.outer(), count) && are_forms_below(form.inner(), count))
}

#[cycle(form)]
fn are_forms_below(forms: Subforms<'_>, count: usize) -> bool
    ensures { result ≡ list_all (is_form_below count) forms.entry }
{
    for form in forms {
        if !is_form_below(form, count) {
            return false;
        }
    }
    true
}

// The names that the form has itself.
#[tactic(auto, using(crate::proofs::Folded::one_below, crate::proofs::Folded::bound_below))]
fn are_own_below(form: &Core, count: usize) -> bool
    ensures { result ≡ are_own_below count form.now }
{
    match &form.form {
        CoreForm::Global(name)
        | CoreForm::SetGlobal(name, _)
        | CoreForm::DefGlobal(name, _)
        | CoreForm::Call(name, _)
        | CoreForm::Dynamic(name)
        | CoreForm::SetDynamic(name, _)
        | CoreForm::DefDynamic(name, _) => name.0 < count,
        CoreForm::DynamicLet(list, _) => are_bound_below(list, count),
        _ => true,
    }
}

// The names of the variables that are bound.
fn are_bound_below(list: &DynBindings, count: usize) -> bool
    ensures { result ≡ list_all (λ (b : bound). nat_lt b.name.0 count) list.now }
{
    list.as_slice().iter().all(|binding| binding.name.0 < count)
}
