// How many variables the functions made in a form capture, counted by a walk.

ghost use Rattle.std.specs.Prelude.{◌≡◌, ◌+◌, [], ◌∷◌, IfOk};
ghost use Rattle.flat_language.specs.model.View.{forms, clauses_of, bindings_of, dynamics_of, maybe_form};
ghost use Rattle.flat_boxes.specs.Totals.{total_of_forms, total_of_clauses, total_of_body, total_of_values, total_of_dynamics};
ghost use Rattle.flat_boxes.specs.Boxes.{variables_among, captures_itself, captured_variables};

use crate::inside::{Inside, inside_of};
use base::NoMemory;
use flat_language::{
    FlatBindingList, FlatCapture, FlatCaptureList, FlatClauseList, FlatCore, FlatCoreList,
    FlatDynBindings,
};

/// How many variables the functions made in a form capture; where they are 2^64 or more, memory is wanting.
#[cycle(captured)]
pub(crate) fn captured_in(form: &FlatCore) -> Result<usize, NoMemory>
    ensures { IfOk result (λ n. n ≡ captured_variables form.now) }
{
    match inside_of(form) {
        Inside::Nothing => Ok(0),
        Inside::Captures(parts) => variables_among(parts),
        Inside::One(inner) => captured_in(inner),
        Inside::Two(first, second) => {
            let count = captured_in(first)?;
            together(count, captured_in(second)?)
        }
        Inside::Forms(list) => captured_in_forms(list),
        Inside::Clauses(list) => captured_in_clauses(list),
        Inside::Let(list, body) => {
            let count = captured_in_bindings(list)?;
            together(count, captured_in(body)?)
        }
        Inside::DynamicLet(list, body) => {
            let count = captured_in_dynamics(list)?;
            together(count, captured_in(body)?)
        }
    }
}

/// The sum of two counts, where there is one of 64 bits.
pub(crate) fn together(one: usize, other: usize) -> Result<usize, NoMemory>
    ensures { IfOk result (λ n. n ≡ one + other) }
{
    match one.checked_add(other) {
        Some(sum) => Ok(sum),
        None => Err(NoMemory),
    }
}

fn variables_among(parts: &FlatCaptureList) -> Result<usize, NoMemory>
    ensures { IfOk result (λ n. n ≡ variables_among parts.now) }
{
    let mut count: usize = 0;
    for at in 0..parts.len() {
        let Some(part) = parts.get(at) else {
            unreachable!()
        };
        count = together(count, variable_in(part))?;
    }
    Ok(count)
}

fn variable_in(part: &FlatCapture) -> usize
    ensures { result ≡ variables_among (part.now ∷ []) }
{
    match part {
        FlatCapture::Variable(_) => 1,
        FlatCapture::Exit(_) => 0,
        FlatCapture::Method(_) => 0,
    }
}

#[cycle(captured)]
#[tactic(auto, using(back_lowering::proofs::Sizes::flat_in_smaller))]
fn captured_in_forms(list: &FlatCoreList) -> Result<usize, NoMemory>
    ensures { IfOk result (λ n. n ≡ total_of_forms captures_itself (forms list.now)) }
{
    let mut count: usize = 0;
    for at in 0..list.len() {
        let Some(form) = list.get(at) else {
            unreachable!()
        };
        let captured = captured_in(form)?;
        count = together(count, captured)?;
    }
    Ok(count)
}

#[cycle(captured)]
#[tactic(auto, using(back_lowering::proofs::Sizes::clause_in_smaller))]
fn captured_in_clauses(list: &FlatClauseList) -> Result<usize, NoMemory>
    ensures { IfOk result (λ n. n ≡ total_of_clauses captures_itself (clauses_of list.now)) }
{
    let mut count: usize = 0;
    for at in 0..list.len() {
        let Some(clause) = list.get(at) else {
            unreachable!()
        };
        let test = captured_in(&clause.test)?;
        let body = captured_in_body(&clause.body)?;
        let clause = together(test, body)?;
        count = together(count, clause)?;
    }
    Ok(count)
}

#[cycle(captured)]
fn captured_in_body(body: &Option<FlatCore>) -> Result<usize, NoMemory>
    ensures { IfOk result (λ n. n ≡ total_of_body captures_itself (maybe_form body.now)) }
{
    match body {
        None => Ok(0),
        Some(form) => captured_in(form),
    }
}

#[cycle(captured)]
#[tactic(auto, using(back_lowering::proofs::Sizes::binding_in_smaller))]
fn captured_in_bindings(list: &FlatBindingList) -> Result<usize, NoMemory>
    ensures { IfOk result (λ n. n ≡ total_of_values captures_itself (bindings_of list.now)) }
{
    let mut count: usize = 0;
    for at in 0..list.len() {
        let Some(binding) = list.get(at) else {
            unreachable!()
        };
        let captured = captured_in(&binding.value)?;
        count = together(count, captured)?;
    }
    Ok(count)
}

#[cycle(captured)]
#[tactic(auto, using(back_lowering::proofs::Sizes::dynamic_in_smaller))]
fn captured_in_dynamics(list: &FlatDynBindings) -> Result<usize, NoMemory>
    ensures { IfOk result (λ n. n ≡ total_of_dynamics captures_itself (dynamics_of list.now)) }
{
    let mut count: usize = 0;
    for at in 0..list.len() {
        let Some(binding) = list.get(at) else {
            unreachable!()
        };
        let captured = captured_in(&binding.value)?;
        count = together(count, captured)?;
    }
    Ok(count)
}
