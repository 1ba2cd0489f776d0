// Core forms with a body alone, or with the variables of it: blocks, `let` and functions.

ghost use Rattle.std.specs.Prelude.{◌≡◌, take, drop, IfOk};
ghost use Rattle.lang_meaning.specs.Form.{block, let_form};
ghost use Rattle.lang_meaning.specs.model.View.{bindings_of};
ghost use Rattle.std.specs.List.{list_any};
ghost use Rattle.lang_meaning.specs.Mentions.{mentions};
ghost use Rattle.front_elaboration.specs.Mentioned.{AreParts};
ghost use Rattle.front_profile.specs.Elaborations.{body_of, rest_found, make_function};

use crate::elaborate::captured::captured;
use crate::mentioned::Mentioned;
use base::NoMemory;
use lang_meaning::{BindingList, CaptureList, Core, CoreForm, CoreList, ExitVar, Var, VarList};
use std::alloc::Global;

/// The form in a box; after `NoMemory` it is dropped.
pub(crate) fn boxed(alloc: Global, form: Core) -> Result<Box<Core>, NoMemory>
    ensures { IfOk result (λ boxed. boxed.value ≡ form) }
{
    Ok(Box::new(alloc, form)?)
}

/// A body with that exit.
pub(crate) fn make_block(alloc: Global, exit: ExitVar, forms: CoreList) -> Result<Core, NoMemory>
    ensures { IfOk result (λ core. core ≡ block exit (body_of forms)) }
{
    let body = boxed(alloc, Core::sequence(forms))?;
    Ok(Core::new(CoreForm::Block(exit, body)))
}

/// Variables with their values, round a body.
pub(crate) fn make_let(
    alloc: Global,
    bindings: BindingList,
    forms: CoreList,
) -> Result<Core, NoMemory>
    ensures { IfOk result (λ core. core ≡ let_form (bindings_of bindings) (body_of forms)) }
{
    let body = boxed(alloc, Core::sequence(forms))?;
    Ok(Core::new(CoreForm::Let(bindings, body)))
}

/// The variables of a function.
#[derive(Drop)]
pub(crate) struct Variables {
    pub(crate) required: VarList,
    pub(crate) rest: Option<Var>,
}

/// So many required ones, and the rest variable behind them, where there is one. Takes no memory.
pub(crate) fn split_variables(variables: VarList, required: usize, rest: bool) -> Variables
    ensures required { result.required ≡ take required variables }
    ensures rest { result.rest ≡ rest_found rest (drop required variables) }
{
    let mut variables = variables;
    let rest = rest_variable(&variables, required, rest);
    if required < variables.len() {
        variables.cut(required);
    }
    Variables {
        required: variables,
        rest,
    }
}

#[tactic(auto, using(crate::proofs::MakingLists::there))]
fn rest_variable(variables: &VarList, required: usize, rest: bool) -> Option<Var>
    ensures { result ≡ rest_found rest (drop required variables.now) }
{
    if !rest {
        return None;
    }
    match variables.get(required) {
        None => None,
        Some(var) => Some(*var),
    }
}

/// A function of these variables and that body, which captures what its body mentions of the parts
/// around it.
#[tactic(auto, using(crate::proofs::Gathered::body_captures))]
pub(crate) fn make_function(
    alloc: Global,
    required: usize,
    rest: bool,
    around: &CaptureList,
    variables: VarList,
    forms: CoreList,
    mentioned: &Mentioned,
) -> Result<Core, NoMemory>
    requires { AreParts mentioned.now (λ p. list_any (mentions p) forms) }
    ensures { IfOk result (λ core. core ≡ make_function required rest around.now variables (body_of forms)) }
{
    let Ok(parts) = captured(alloc, around, mentioned) else {
        drop(forms);
        return Err(NoMemory);
    };
    let body = boxed(alloc, Core::sequence(forms))?;
    let variables = split_variables(variables, required, rest);
    Ok(Core::new(CoreForm::Lambda(variables.required, variables.rest, body, parts)))
}
