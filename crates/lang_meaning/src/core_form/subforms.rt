// The forms right inside a form, as code goes over them: those that stand where the form stands, and those that stand where
// what it binds is bound.

ghost use Rattle.std.specs.Prelude.{◌≡◌, [], ◌∷◌, ◌++◌, option_to_list, MatchOption};
ghost use Rattle.std.specs.Iterator.{YieldsFirstRef, item_count};
ghost use Rattle.lang_meaning.specs.Subforms.{outer, inner};
ghost use Rattle.lang_meaning.specs.model.View.{view_form};
ghost use Rattle.lang_meaning.specs.model.SubformsView.{view_left, clause_forms};

use crate::core_form::{Binding, Clause, Core, CoreForm, DynBinding};
use std::marker::Model;

/// Forms right inside a form, in their order: gives one after another. Contracts see the list of
/// those that are left.
#[derive(Drop)]
pub struct Subforms<'a> {
    left: Left<'a>,
}

// What is left of a list of forms, of clauses or of bindings; of one form or two.
#[derive(Clone, Copy)]
enum Left<'a> {
    Nothing,
    One(&'a Core),
    Two(&'a Core, &'a Core),
    Forms(&'a [Core]),
    Clauses(&'a [Clause]),
    // The body of a clause, and the clauses after it.
    Body(&'a Core, &'a [Clause]),
    Values(&'a [Binding]),
    DynamicValues(&'a [DynBinding]),
}

impl<'a> Model for Subforms<'a> {
    ghost use Rattle.std.specs.Prelude.{List};
    ghost use Rattle.lang_meaning.specs.Form.{Form};

    ghost Value = { List Form };

    ghost use Rattle.lang_meaning.specs.model.SubformsView.{forms_code, view_left};

    ghost coded = { forms_code };

    ghost view = { λ s. view_left s.left };
}

impl<'a> Iterator for Subforms<'a> {
    type Item = &'a Core;

    ghost next_gives = { YieldsFirstRef (λ forms. forms) };

    ghost remaining = { item_count (λ forms. forms) };

    /// The first form that is left; None exactly where none is. Takes no memory.
    fn next(&mut self) -> Option<&'a Core> {
        let (first, left) = split(self.left)?;
        self.left = left;
        Some(first)
    }
}

impl Core {
    /// The forms right inside that stand where this form stands. Takes no memory.
    pub fn outer(&self) -> Subforms<'_>
        ensures { result ≡ outer self.now }
    {
        Subforms {
            left: outer(&self.form),
        }
    }

    /// The forms right inside that stand where what this form binds is bound. Takes no memory.
    pub fn inner(&self) -> Subforms<'_>
        ensures { result ≡ inner self.now }
    {
        Subforms {
            left: inner(&self.form),
        }
    }
}

#[tactic(auto, using(crate::specs::bridge::Listed::forms_listed, crate::specs::bridge::Listed::clauses_listed, crate::specs::bridge::Listed::values_listed, crate::specs::bridge::Listed::dynamics_listed))]
fn outer(form: &CoreForm) -> Left<'_>
    ensures { view_left result ≡ outer (view_form form.now) }
{
    match form {
        CoreForm::SetLocal(_, inside)
        | CoreForm::SetGlobal(_, inside)
        | CoreForm::DefGlobal(_, inside)
        | CoreForm::Return(_, inside)
        | CoreForm::SetDynamic(_, inside)
        | CoreForm::DefDynamic(_, inside)
        | CoreForm::Sited(_, inside) => Left::One(inside),
        CoreForm::Apply(first, second)
        | CoreForm::While(first, second)
        | CoreForm::Catch(first, second)
        | CoreForm::Throw(first, second)
        | CoreForm::Unwind(first, second)
        | CoreForm::WithHandler(first, second)
        | CoreForm::Signal(first, second)
        | CoreForm::Continue(first, second) => Left::Two(first, second),
        CoreForm::Sequence(list)
        | CoreForm::Call(_, list)
        | CoreForm::CallValue(list)
        | CoreForm::Prim(_, list) => Left::Forms(list.as_slice()),
        CoreForm::Clauses(list) => Left::Clauses(list.as_slice()),
        CoreForm::Let(list, _) => Left::Values(list.as_slice()),
        CoreForm::DynamicLet(list, _) => Left::DynamicValues(list.as_slice()),
        _ => Left::Nothing,
    }
}

#[tactic(auto, using(crate::specs::bridge::Listed::forms_listed))]
fn inner(form: &CoreForm) -> Left<'_>
    ensures { view_left result ≡ inner (view_form form.now) }
{
    match form {
        CoreForm::Let(_, body)
        | CoreForm::Lambda(_, _, body, _)
        | CoreForm::Block(_, body)
        | CoreForm::DynamicLet(_, body) => Left::One(body),
        CoreForm::Tagbody(_, list) => Left::Forms(list.as_slice()),
        _ => Left::Nothing,
    }
}

// The first form, and what is left after it; None exactly where nothing is left.
fn split(left: Left<'_>) -> Option<(&Core, Left<'_>)>
    ensures { MatchOption result (view_left left.entry ≡ [])
        (λ parts. view_left left.entry ≡ parts.0.now ∷ view_left parts.1) }
{
    match left {
        Left::Nothing => None,
        Left::One(form) => Some((form, Left::Nothing)),
        Left::Two(first, second) => Some((first, Left::One(second))),
        Left::Forms(list) => {
            let (first, others) = list.split_first()?;
            Some((first, Left::Forms(others)))
        }
        Left::Clauses(list) => {
            let (clause, others) = list.split_first()?;
            Some((&clause.test, after_test(clause, others)))
        }
        Left::Body(body, list) => Some((body, Left::Clauses(list))),
        Left::Values(list) => {
            let (binding, others) = list.split_first()?;
            Some((&binding.value, Left::Values(others)))
        }
        Left::DynamicValues(list) => {
            let (binding, others) = list.split_first()?;
            Some((&binding.value, Left::DynamicValues(others)))
        }
    }
}

// What is left after the test of a clause, with these clauses after it.
fn after_test<'a>(clause: &'a Clause, others: &'a [Clause]) -> Left<'a>
    ensures { view_left result ≡ option_to_list clause.now.body ++ clause_forms others.now }
{
    match &clause.body {
        None => Left::Clauses(others),
        Some(body) => Left::Body(body, others),
    }
}
