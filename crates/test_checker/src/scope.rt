// What is bound around a form.

ghost use Rattle.std.specs.Prelude.{◌≡◌, ◌==◌, ◌++◌, filter, option_to_list, IfOk, OnOk};
ghost use Rattle.std.specs.List.{list_any};
ghost use Rattle.lang_meaning.specs.declared.capture.Capture.TheVariants.{Variable, Exit};
ghost use Rattle.lang_meaning.specs.Mentions.{same_part, variables_bound};
ghost use Rattle.lang_meaning.specs.Standing.{alone, with_bound, with_around, is_variable, exit_around, is_block, is_segment, is_bound, seen};
ghost use Rattle.lang_meaning.specs.Form.{parameters};
ghost use Rattle.lang_meaning.specs.model.View.{bindings_of};

use crate::parts::has_part;
use base::NoMemory;
use lang_meaning::{
    BindingList, Capture, ExitForm, ExitVar, LexicalScope, NamedExit, NamedExits, Var, VarList,
};
use std::alloc::Global;

// That of a body that sees these variables and nothing else.
pub fn alone(alloc: Global, variables: VarList, in_method: bool) -> LexicalScope
    ensures { result ≡ alone variables in_method }
{
    LexicalScope {
        variables,
        exits: NamedExits::new(alloc),
        in_method,
    }
}

// With these variables bound besides.
pub fn with_variables(
    alloc: Global,
    scope: &LexicalScope,
    variables: VarList,
) -> Result<LexicalScope, NoMemory>
    ensures { IfOk result (λ inside. inside ≡ with_bound variables scope.now) }
{
    let mut variables = variables;
    push_variables(&mut variables, scope.variables.as_slice())?;
    let mut exits = NamedExits::new(alloc);
    push_exits(&mut exits, scope.exits.as_slice())?;
    Ok(LexicalScope {
        variables,
        exits,
        in_method: scope.in_method,
    })
}

// With an exit in front of those around it.
pub fn with_around(
    alloc: Global,
    scope: &LexicalScope,
    exit: ExitVar,
    around: ExitForm,
) -> Result<LexicalScope, NoMemory>
    ensures { IfOk result (λ inside. inside ≡ with_around exit around scope.now) }
{
    let mut variables = VarList::new(alloc);
    push_variables(&mut variables, scope.variables.as_slice())?;
    let mut exits = NamedExits::new(alloc);
    exits.push(NamedExit { exit, around })?;
    push_exits(&mut exits, scope.exits.as_slice())?;
    Ok(LexicalScope {
        variables,
        exits,
        in_method: scope.in_method,
    })
}

// What a function sees that captures these parts.
pub fn seen(
    alloc: Global,
    scope: &LexicalScope,
    parts: &[Capture],
) -> Result<LexicalScope, NoMemory>
    ensures { IfOk result (λ inside. inside ≡ seen parts.now scope.now) }
{
    Ok(LexicalScope {
        variables: seen_variables(alloc, scope.variables.as_slice(), parts)?,
        exits: seen_exits(alloc, scope.exits.as_slice(), parts)?,
        in_method: scope.in_method && has_part(Capture::Method, parts),
    })
}

pub fn has_variable(scope: &LexicalScope, var: Var) -> bool
    ensures { result ≡ is_variable scope.now var }
{
    for v in scope.variables.as_slice() {
        if var == *v {
            return true;
        }
    }
    false
}

// Whether the innermost exit of that name is a block's.
pub fn has_block(scope: &LexicalScope, exit: ExitVar) -> bool
    ensures { result ≡ is_block (exit_around exit scope.now.exits) }
{
    match exit_around(exit, scope.exits.as_slice()) {
        None | Some(ExitForm::Tagbody(_)) => false,
        Some(ExitForm::Block) => true,
    }
}

// Whether it is that of a tagbody with such a segment.
pub fn has_segment(scope: &LexicalScope, exit: ExitVar, segment: u32) -> bool
    ensures { result ≡ is_segment segment (exit_around exit scope.now.exits) }
{
    match exit_around(exit, scope.exits.as_slice()) {
        None | Some(ExitForm::Block) => false,
        Some(ExitForm::Tagbody(segments)) => (segment as usize) < segments,
    }
}

fn has_exit(scope: &LexicalScope, exit: ExitVar) -> bool
    ensures { result ≡ list_any (λ e. exit == e.exit) scope.now.exits }
{
    for e in scope.exits.as_slice() {
        if exit == e.exit {
            return true;
        }
    }
    false
}

// Whether the part is bound.
pub fn binds(scope: &LexicalScope, part: Capture) -> bool
    ensures { result ≡ is_bound scope.now part }
{
    match part {
        Capture::Variable(var) => has_variable(scope, var),
        Capture::Exit(exit) => has_exit(scope, exit),
        Capture::Method => scope.in_method,
    }
}

// The innermost exit of that name.
fn exit_around(exit: ExitVar, exits: &[NamedExit]) -> Option<ExitForm>
    ensures { result ≡ exit_around exit exits.now }
{
    for e in exits {
        if exit == e.exit {
            return Some(e.around);
        }
    }
    None
}

fn seen_variables(alloc: Global, vars: &[Var], parts: &[Capture]) -> Result<VarList, NoMemory>
    ensures { IfOk result (λ list. list ≡ filter (λ v. list_any (same_part (Variable v)) parts.now) vars.now) }
{
    let mut list = VarList::new(alloc);
    for var in vars {
        if has_part(Capture::Variable(*var), parts) {
            list.push(*var)?;
        }
    }
    Ok(list)
}

fn seen_exits(alloc: Global, exits: &[NamedExit], parts: &[Capture]) -> Result<NamedExits, NoMemory>
    ensures { IfOk result (λ list. list ≡ filter (λ e. list_any (same_part (Exit e.exit)) parts.now) exits.now) }
{
    let mut list = NamedExits::new(alloc);
    for exit in exits {
        if has_part(Capture::Exit(exit.exit), parts) {
            list.push(*exit)?;
        }
    }
    Ok(list)
}

// The variables of a function: the required ones, and the rest variable.
pub fn parameters(alloc: Global, required: &VarList, rest: Option<Var>) -> Result<VarList, NoMemory>
    ensures { IfOk result (λ list. list ≡ parameters required.now rest) }
{
    let mut list = VarList::new(alloc);
    push_variables(&mut list, required.as_slice())?;
    push_rest(&mut list, rest)?;
    Ok(list)
}

// The variables that bindings bind.
pub fn variables_bound(alloc: Global, bindings: &BindingList) -> Result<VarList, NoMemory>
    ensures { IfOk result (λ list. list ≡ variables_bound (bindings_of bindings.now)) }
{
    let mut list = VarList::new(alloc);
    for binding in bindings.as_slice() {
        list.push(binding.var)?;
    }
    Ok(list)
}

fn push_rest(list: &mut VarList, rest: Option<Var>) -> Result<(), NoMemory>
    ensures { OnOk result (list.new ≡ list.old ++ option_to_list rest) }
{
    match rest {
        None => Ok(()),
        Some(var) => list.push(var),
    }
}

fn push_variables(list: &mut VarList, more: &[Var]) -> Result<(), NoMemory>
    ensures { OnOk result (list.new ≡ list.old ++ more.now) }
{
    for var in more {
        list.push(*var)?;
    }
    Ok(())
}

fn push_exits(list: &mut NamedExits, more: &[NamedExit]) -> Result<(), NoMemory>
    ensures { OnOk result (list.new ≡ list.old ++ more.now) }
{
    for exit in more {
        list.push(*exit)?;
    }
    Ok(())
}
