// What forms are charged as they begin.

ghost use Rattle.std.specs.Prelude.{◌≡◌, ◌+◌, IfOk};
ghost use Rattle.flat_language.specs.FlatNodes.{own_nodes};
ghost use Rattle.flat_language.specs.model.View.{view_form};

use base::NoMemory;
use flat_language::FlatCoreForm;

/// The nodes that a form counts by itself.
pub fn own_nodes(form: &FlatCoreForm) -> Result<u64, NoMemory>
    ensures { IfOk result (λ n. n ≡ own_nodes (view_form form.now)) }
{
    let (own, listed) = own_and_listed(form);
    own.checked_add(listed as u64).ok_or(NoMemory)
}

// The same as a number for its kind and one for the parts that it lists.
#[tactic(auto, using(crate::proofs::Counting::forms_counted, crate::proofs::Counting::clauses_counted, crate::proofs::Counting::bindings_counted, crate::proofs::Counting::dynamics_counted))]
pub(crate) fn own_and_listed(form: &FlatCoreForm) -> (u64, usize)
    ensures { result.0 + result.1 ≡ own_nodes (view_form form.now) }
{
    match form {
        FlatCoreForm::Clauses(list) => (1, list.len()),
        FlatCoreForm::Let(list, _) => (1, list.len()),
        FlatCoreForm::MakeFunction(_, parts) => (1, parts.len()),
        FlatCoreForm::Call(_, list) => (2, list.len()),
        FlatCoreForm::CallValue(list) | FlatCoreForm::Prim(_, list) => (1, list.len()),
        FlatCoreForm::Tagbody(list) => (2, list.len().saturating_sub(1)),
        FlatCoreForm::DynamicLet(list, _) => (1, list.len()),
        FlatCoreForm::Global(_)
        | FlatCoreForm::SetGlobal(..)
        | FlatCoreForm::DefGlobal(..)
        | FlatCoreForm::Dynamic(_)
        | FlatCoreForm::SetDynamic(..)
        | FlatCoreForm::DefDynamic(..)
        | FlatCoreForm::Block(..)
        | FlatCoreForm::Catch(..)
        | FlatCoreForm::Unwind(..)
        | FlatCoreForm::WithHandler(..) => (2, 0),
        FlatCoreForm::Sited(..) => (0, 0),
        _ => (1, 0),
    }
}
