// The nodes of flat forms, by which applications are charged.

ghost use Rattle.std.specs.Prelude.{◌≡◌, min};
ghost use Rattle.std.specs.List.{sum_by};
ghost use Rattle.flat_language.specs.FlatNodes.{nodes, own_nodes};
ghost use Rattle.eval_state.specs.Sizes.{nodes_inside, clause_nodes, value_nodes, dynamic_nodes};

use crate::nodes::own_and_listed;
use flat_language::{
    FlatBindingList, FlatClause, FlatClauseList, FlatCore, FlatCoreForm, FlatCoreList,
    FlatDynBindings,
};

// Its nodes: its own and those of the forms inside; 2^64 - 1 where that is more.
#[cycle(nodes)]
#[tactic(auto, using(crate::proofs::NodesInside::own_and_inside))]
pub fn form_nodes(form: &FlatCore) -> u64
    ensures { result ≡ min (nodes form.now) 18446744073709551615 }
{
    own_nodes(form).saturating_add(nodes_inside(form))
}

// What it counts by itself.
fn own_nodes(form: &FlatCore) -> u64
    ensures { result ≡ min (own_nodes form.now) 18446744073709551615 }
{
    let (own, listed) = own_and_listed(&form.form);
    own.saturating_add(listed as u64)
}

// The nodes of the forms right inside a form.
#[cycle(nodes)]
#[tactic(auto, using(crate::proofs::NodesInside::forms_summed, crate::proofs::NodesInside::clauses_summed, crate::proofs::NodesInside::values_summed, crate::proofs::NodesInside::dynamics_summed))]
fn nodes_inside(form: &FlatCore) -> u64
    ensures { result ≡ min (nodes_inside form.now) 18446744073709551615 }
{
    match &form.form {
        FlatCoreForm::SetLocal(_, inside)
        | FlatCoreForm::SetGlobal(_, inside)
        | FlatCoreForm::DefGlobal(_, inside)
        | FlatCoreForm::Block(inside)
        | FlatCoreForm::Return(_, inside)
        | FlatCoreForm::SetDynamic(_, inside)
        | FlatCoreForm::DefDynamic(_, inside)
        | FlatCoreForm::Sited(_, inside) => form_nodes(inside),
        FlatCoreForm::Apply(first, second)
        | FlatCoreForm::While(first, second)
        | FlatCoreForm::Catch(first, second)
        | FlatCoreForm::Throw(first, second)
        | FlatCoreForm::Unwind(first, second)
        | FlatCoreForm::WithHandler(first, second)
        | FlatCoreForm::Signal(first, second)
        | FlatCoreForm::Continue(first, second) => {
            form_nodes(first).saturating_add(form_nodes(second))
        }
        FlatCoreForm::Sequence(list)
        | FlatCoreForm::Call(_, list)
        | FlatCoreForm::CallValue(list)
        | FlatCoreForm::Prim(_, list)
        | FlatCoreForm::Tagbody(list) => list_nodes(list),
        FlatCoreForm::Clauses(list) => clause_list_nodes(list),
        FlatCoreForm::Let(list, body) => value_list_nodes(list).saturating_add(form_nodes(body)),
        FlatCoreForm::DynamicLet(list, body) => {
            dynamic_list_nodes(list).saturating_add(form_nodes(body))
        }
        FlatCoreForm::Literal(_)
        | FlatCoreForm::Local(_)
        | FlatCoreForm::Global(_)
        | FlatCoreForm::MakeFunction(_, _)
        | FlatCoreForm::Go(_, _)
        | FlatCoreForm::Dynamic(_)
        | FlatCoreForm::NextMethod(_)
        | FlatCoreForm::HasNext(_) => 0,
    }
}

#[cycle(nodes)]
fn list_nodes(list: &FlatCoreList) -> u64
    ensures { result ≡ min (sum_by nodes list.now) 18446744073709551615 }
{
    let mut total: u64 = 0;
    for at in 0..list.len() {
        let Some(form) = list.get(at) else {
            unreachable!()
        };
        total = total.saturating_add(form_nodes(form));
    }
    total
}

#[cycle(nodes)]
fn clause_list_nodes(list: &FlatClauseList) -> u64
    ensures { result ≡ min (sum_by clause_nodes list.now) 18446744073709551615 }
{
    let mut total: u64 = 0;
    for at in 0..list.len() {
        let Some(clause) = list.get(at) else {
            unreachable!()
        };
        total = total.saturating_add(clause_nodes(clause));
    }
    total
}

#[cycle(nodes)]
fn clause_nodes(clause: &FlatClause) -> u64
    ensures { result ≡ min (clause_nodes clause.now) 18446744073709551615 }
{
    match &clause.body {
        Some(body) => form_nodes(&clause.test).saturating_add(form_nodes(body)),
        None => form_nodes(&clause.test),
    }
}

#[cycle(nodes)]
fn value_list_nodes(list: &FlatBindingList) -> u64
    ensures { result ≡ min (sum_by value_nodes list.now) 18446744073709551615 }
{
    let mut total: u64 = 0;
    for at in 0..list.len() {
        let Some(binding) = list.get(at) else {
            unreachable!()
        };
        total = total.saturating_add(form_nodes(&binding.value));
    }
    total
}

#[cycle(nodes)]
fn dynamic_list_nodes(list: &FlatDynBindings) -> u64
    ensures { result ≡ min (sum_by dynamic_nodes list.now) 18446744073709551615 }
{
    let mut total: u64 = 0;
    for at in 0..list.len() {
        let Some(binding) = list.get(at) else {
            unreachable!()
        };
        total = total.saturating_add(form_nodes(&binding.value));
    }
    total
}
