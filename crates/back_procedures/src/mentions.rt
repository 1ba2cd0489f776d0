// How often the body of a function names its variables.

ghost use Rattle.std.specs.Prelude.{◌≡◌, min};
ghost use Rattle.std.specs.List.{sum_by};
ghost use Rattle.flat_language.specs.model.View.{view_form};
ghost use Rattle.back_lowering.specs.Mentions.{own_mentions, mentions};
ghost use Rattle.back_procedures.specs.Mentioned.{mentions_inside, clause_mentions, value_mentions, dynamic_mentions};

use flat_language::{
    FlatBindingList, FlatClause, FlatClauseList, FlatCore, FlatCoreForm, FlatCoreList,
    FlatDynBindings,
};

/// How often a form and the forms in it name variables; 2^64 - 1 where that is more.
#[cycle(mentions)]
#[tactic(auto, using(crate::proofs::MentionsInside::own_and_inside))]
pub(crate) fn mentions(form: &FlatCore) -> u64
    ensures { result ≡ min (mentions form.now) 18446744073709551615 }
{
    own_mentions(&form.form).saturating_add(mentions_inside(form))
}

// How often it does itself.
fn own_mentions(form: &FlatCoreForm) -> u64
    ensures { result ≡ min (own_mentions (view_form form.now)) 18446744073709551615 }
{
    match form {
        FlatCoreForm::Local(_) | FlatCoreForm::SetLocal(..) => 1,
        FlatCoreForm::MakeFunction(_, parts) => parts.len() as u64,
        _ => 0,
    }
}

// And the forms right inside it.
#[cycle(mentions)]
#[tactic(auto, using(crate::proofs::MentionsInside::forms_summed, crate::proofs::MentionsInside::clauses_summed, crate::proofs::MentionsInside::values_summed, crate::proofs::MentionsInside::dynamics_summed))]
fn mentions_inside(form: &FlatCore) -> u64
    ensures { result ≡ min (mentions_inside form.now) 18446744073709551615 }
{
    match &form.form {
        FlatCoreForm::SetLocal(_, inside)
        | FlatCoreForm::SetGlobal(_, inside)
        | FlatCoreForm::DefGlobal(_, inside)
        | FlatCoreForm::Block(inside)
        | FlatCoreForm::Return(_, inside)
        | FlatCoreForm::SetDynamic(_, inside)
        | FlatCoreForm::DefDynamic(_, inside)
        | FlatCoreForm::Sited(_, inside) => mentions(inside),
        FlatCoreForm::Apply(first, second)
        | FlatCoreForm::While(first, second)
        | FlatCoreForm::Catch(first, second)
        | FlatCoreForm::Throw(first, second)
        | FlatCoreForm::Unwind(first, second)
        | FlatCoreForm::WithHandler(first, second)
        | FlatCoreForm::Signal(first, second)
        | FlatCoreForm::Continue(first, second) => {
            mentions(first).saturating_add(mentions(second))
        }
        FlatCoreForm::Sequence(list)
        | FlatCoreForm::Call(_, list)
        | FlatCoreForm::CallValue(list)
        | FlatCoreForm::Prim(_, list)
        | FlatCoreForm::Tagbody(list) => list_mentions(list),
        FlatCoreForm::Clauses(list) => clause_list_mentions(list),
        FlatCoreForm::Let(list, body) => value_list_mentions(list).saturating_add(mentions(body)),
        FlatCoreForm::DynamicLet(list, body) => {
            dynamic_list_mentions(list).saturating_add(mentions(body))
        }
        FlatCoreForm::Literal(_)
        | FlatCoreForm::Local(_)
        | FlatCoreForm::Global(_)
        | FlatCoreForm::MakeFunction(_, _)
        | FlatCoreForm::Go(_, _)
        | FlatCoreForm::Dynamic(_)
        | FlatCoreForm::NextMethod(_)
        | FlatCoreForm::HasNext(_) => 0,
    }
}

#[cycle(mentions)]
fn list_mentions(list: &FlatCoreList) -> u64
    ensures { result ≡ min (sum_by mentions list.now) 18446744073709551615 }
{
    let mut total: u64 = 0;
    for at in 0..list.len() {
        let Some(form) = list.get(at) else {
            unreachable!()
        };
        total = total.saturating_add(mentions(form));
    }
    total
}

#[cycle(mentions)]
fn clause_list_mentions(list: &FlatClauseList) -> u64
    ensures { result ≡ min (sum_by clause_mentions list.now) 18446744073709551615 }
{
    let mut total: u64 = 0;
    for at in 0..list.len() {
        let Some(clause) = list.get(at) else {
            unreachable!()
        };
        total = total.saturating_add(clause_mentions(clause));
    }
    total
}

#[cycle(mentions)]
fn clause_mentions(clause: &FlatClause) -> u64
    ensures { result ≡ min (clause_mentions clause.now) 18446744073709551615 }
{
    match &clause.body {
        Some(body) => mentions(&clause.test).saturating_add(mentions(body)),
        None => mentions(&clause.test),
    }
}

#[cycle(mentions)]
fn value_list_mentions(list: &FlatBindingList) -> u64
    ensures { result ≡ min (sum_by value_mentions list.now) 18446744073709551615 }
{
    let mut total: u64 = 0;
    for at in 0..list.len() {
        let Some(binding) = list.get(at) else {
            unreachable!()
        };
        total = total.saturating_add(mentions(&binding.value));
    }
    total
}

#[cycle(mentions)]
fn dynamic_list_mentions(list: &FlatDynBindings) -> u64
    ensures { result ≡ min (sum_by dynamic_mentions list.now) 18446744073709551615 }
{
    let mut total: u64 = 0;
    for at in 0..list.len() {
        let Some(binding) = list.get(at) else {
            unreachable!()
        };
        total = total.saturating_add(mentions(&binding.value));
    }
    total
}
