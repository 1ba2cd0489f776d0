// Whether all that a form names is bound where it stands.

ghost use Rattle.std.specs.Prelude.{◌≡◌, unwrap_or, IfOk};
ghost use Rattle.std.specs.List.{list_all};
ghost use Rattle.lang_meaning.specs.Mentions.{is_next, in_order};
ghost use Rattle.lang_meaning.specs.Standing.{is_bound, is_free, are_captured, around_inner, stands_itself, stands};

use crate::parts::comes_before;
use crate::scope::{
    binds, has_block, has_segment, has_variable, parameters, seen, variables_bound, with_around,
    with_variables,
};
use base::NoMemory;
use lang_meaning::{
    Capture, CaptureList, Core, CoreForm, ExitForm, LexicalScope, Subforms, Var, VarList, mentions,
    owns,
};
use std::alloc::Global;

// Whether all names in a form are bound.
#[cycle(stands)]
#[tactic(auto, using(lang_meaning::specs::bridge::Judged::stands_folded, lang_meaning::specs::bridge::Smaller::outer_is_smaller, lang_meaning::specs::bridge::Smaller::inner_is_smaller))]
pub fn stands(form: &Core, alloc: Global, scope: &LexicalScope) -> Result<bool, NoMemory>
    ensures { IfOk result (λ yes. yes ≡ stands scope.now form.now) }
{
    if !stands_itself(form, alloc, scope)? {
        return Ok(false);
    }
    if !all_stand(form.outer(), alloc, scope)? {
        return Ok(false);
    }
    let inside = around_inner(form, alloc, scope)?;
    all_stand(form.inner(), alloc, inside.as_ref().unwrap_or(scope))
}

#[cycle(stands)]
fn all_stand(forms: Subforms<'_>, alloc: Global, scope: &LexicalScope) -> Result<bool, NoMemory>
    ensures { IfOk result (λ yes. yes ≡ list_all (stands scope.now) forms.entry) }
{
    for form in forms {
        if !stands(form, alloc, scope)? {
            return Ok(false);
        }
    }
    Ok(true)
}

// Where the inner forms of a form stand; None where it binds nothing.
#[tactic(auto, using(lang_meaning::specs::bridge::Lengths::forms_counted))]
fn around_inner(
    form: &Core,
    alloc: Global,
    scope: &LexicalScope,
) -> Result<Option<LexicalScope>, NoMemory>
    ensures { IfOk result (λ inside. unwrap_or inside scope.now ≡ around_inner form.now scope.now) }
{
    match &form.form {
        CoreForm::Let(list, _) => {
            let own = variables_bound(alloc, list)?;
            Ok(Some(with_variables(alloc, scope, own)?))
        }
        CoreForm::Lambda(required, rest, _, parts) => {
            let own = parameters(alloc, required, *rest)?;
            let seen = seen(alloc, scope, parts.as_slice())?;
            Ok(Some(with_variables(alloc, &seen, own)?))
        }
        CoreForm::Block(exit, _) => Ok(Some(with_around(alloc, scope, *exit, ExitForm::Block)?)),
        CoreForm::Tagbody(exit, list) => {
            let around = ExitForm::Tagbody(list.len());
            Ok(Some(with_around(alloc, scope, *exit, around)?))
        }
        _ => Ok(None),
    }
}

// Whether what the form itself names is bound.
fn stands_itself(form: &Core, alloc: Global, scope: &LexicalScope) -> Result<bool, NoMemory>
    ensures { IfOk result (λ yes. yes ≡ stands_itself scope.now form.now) }
{
    match &form.form {
        CoreForm::Local(var) | CoreForm::SetLocal(var, _) => Ok(has_variable(scope, *var)),
        CoreForm::Lambda(required, rest, body, parts) => {
            let own = parameters(alloc, required, *rest)?;
            Ok(are_captured(scope, own.as_slice(), body, parts.as_slice()))
        }
        CoreForm::Return(exit, _) => Ok(has_block(scope, *exit)),
        CoreForm::Go(exit, segment) => Ok(has_segment(scope, *exit, *segment)),
        CoreForm::NextMethod | CoreForm::HasNext => Ok(scope.in_method),
        _ => Ok(true),
    }
}

// Whether they stand in their order, are bound, and are what the body mentions besides its own variables.
fn are_captured(scope: &LexicalScope, own: &[Var], body: &Core, parts: &[Capture]) -> bool
    ensures { result ≡ are_captured scope.now own.now body.now parts.now }
{
    in_order(parts) && are_bound(scope, parts) && are_free(own, body, parts)
}

fn are_bound(scope: &LexicalScope, parts: &[Capture]) -> bool
    ensures { result ≡ list_all (is_bound scope.now) parts.now }
{
    for part in parts {
        if !binds(scope, *part) {
            return false;
        }
    }
    true
}

fn are_free(own: &[Var], body: &Core, parts: &[Capture]) -> bool
    ensures { result ≡ list_all (is_free own.now body.now) parts.now }
{
    for part in parts {
        if !is_free(own, body, *part) {
            return false;
        }
    }
    true
}

fn is_free(own: &[Var], body: &Core, part: Capture) -> bool
    ensures { result ≡ is_free own.now body.now part }
{
    !owns(own, part) && mentions(body, part)
}

// Variables by rising number, then exits by rising number, then the method.
fn in_order(parts: &[Capture]) -> bool
    ensures { result ≡ in_order parts.now }
{
    let mut left = parts;
    while let [first, rest @ ..] = left {
        if !is_next(*first, rest) {
            return false;
        }
        left = rest;
    }
    true
}

fn is_next(part: Capture, parts: &[Capture]) -> bool
    ensures { result ≡ is_next part parts.now }
{
    match parts {
        [] => true,
        [first, ..] => comes_before(part, *first),
    }
}
