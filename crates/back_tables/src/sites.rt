// Whether the code of a form looks at the site that it is given.

ghost use Rattle.std.specs.Prelude.{◌≡◌};
ghost use Rattle.flat_language.specs.model.View.{forms, clauses_of, bindings_of, dynamics_of, maybe_form};
ghost use Rattle.back_lowering.specs.Sites.{asks_site, forms_ask, clauses_ask, body_asks, bindings_ask, dynamics_ask};

use crate::asking::{Asking, asking_of};
use flat_language::{FlatBindingList, FlatClauseList, FlatCore, FlatCoreList, FlatDynBindings};

/// Whether the code of a form looks at the site that it is given.
#[cycle(sites)]
pub fn asks_site(form: &FlatCore) -> bool
    ensures { result ≡ asks_site form.now }
{
    match asking_of(form) {
        Asking::Yes => true,
        Asking::No => false,
        Asking::One(inner) => asks_site(inner),
        Asking::Either(first, second) => asks_site(first) || asks_site(second),
        Asking::Forms(list) => forms_ask(list),
        Asking::Clauses(list) => clauses_ask(list),
        Asking::Let(list, body) => bindings_ask(list) || asks_site(body),
        Asking::DynamicLet(list, body) => dynamics_ask(list) || asks_site(body),
    }
}

#[cycle(sites)]
#[tactic(auto, using(back_lowering::proofs::Sizes::flat_in_smaller))]
fn forms_ask(list: &FlatCoreList) -> bool
    ensures { result ≡ forms_ask (forms list.now) }
{
    for i in 0..list.len() {
        let Some(form) = list.get(i) else {
            unreachable!()
        };
        if asks_site(form) {
            return true;
        }
    }
    false
}

#[cycle(sites)]
#[tactic(auto, using(back_lowering::proofs::Sizes::clause_in_smaller))]
fn clauses_ask(list: &FlatClauseList) -> bool
    ensures { result ≡ clauses_ask (clauses_of list.now) }
{
    for i in 0..list.len() {
        let Some(clause) = list.get(i) else {
            unreachable!()
        };
        if asks_site(&clause.test) || body_asks(&clause.body) {
            return true;
        }
    }
    false
}

#[cycle(sites)]
fn body_asks(body: &Option<FlatCore>) -> bool
    ensures { result ≡ body_asks (maybe_form body.now) }
{
    match body {
        None => false,
        Some(form) => asks_site(form),
    }
}

#[cycle(sites)]
#[tactic(auto, using(back_lowering::proofs::Sizes::binding_in_smaller))]
fn bindings_ask(list: &FlatBindingList) -> bool
    ensures { result ≡ bindings_ask (bindings_of list.now) }
{
    for i in 0..list.len() {
        let Some(binding) = list.get(i) else {
            unreachable!()
        };
        if asks_site(&binding.value) {
            return true;
        }
    }
    false
}

#[cycle(sites)]
#[tactic(auto, using(back_lowering::proofs::Sizes::dynamic_in_smaller))]
fn dynamics_ask(list: &FlatDynBindings) -> bool
    ensures { result ≡ dynamics_ask (dynamics_of list.now) }
{
    for i in 0..list.len() {
        let Some(binding) = list.get(i) else {
            unreachable!()
        };
        if asks_site(&binding.value) {
            return true;
        }
    }
    false
}
