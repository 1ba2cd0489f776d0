// The names that a form uses are added: what it names itself, and what its parts use.

ghost use Rattle.std.specs.Prelude.{OnOk};
ghost use Rattle.flat_language.specs.model.View.{forms, clauses_of, bindings_of, dynamics_of, maybe_form};
ghost use Rattle.back_words.specs.Uses.{uses, uses_of_forms, uses_of_clauses, uses_of_body, uses_of_values, uses_of_dynamics};
ghost use Rattle.back_uses.specs.Functions.{HasFunctions};
ghost use Rattle.back_uses.specs.Used.{AreAdded};

use crate::functions::{Lookups, add_function, add_literal};
use crate::naming::{Naming, naming_of};
use crate::used::UsedNames;
use base::NoMemory;
use flat_language::{FlatBindingList, FlatClauseList, FlatCore, FlatCoreList, FlatDynBindings};

// The names that a form uses.
#[cycle(uses)]
pub(crate) fn add_uses(
    lookups: &Lookups,
    form: &FlatCore,
    used: &mut UsedNames,
) -> Result<(), NoMemory>
    requires { HasFunctions lookups.now }
    ensures { OnOk result (AreAdded used.old (uses lookups.now.names.now lookups.now.program.now form.now) used.new) }
{
    match naming_of(form) {
        Naming::Nothing => Ok(()),
        Naming::Literal(literal) => add_literal(lookups, literal, used),
        Naming::Global(name) => used.add_global(name),
        Naming::Dynamic(name) => used.add_dynamic(name),
        Naming::GlobalAnd(name, value) => {
            used.add_global(name)?;
            add_uses(lookups, value, used)
        }
        Naming::DynamicAnd(name, value) => {
            used.add_dynamic(name)?;
            add_uses(lookups, value, used)
        }
        Naming::FunctionAnd(name, list) => {
            add_function(lookups, name, used)?;
            add_forms(lookups, list, used)
        }
        Naming::One(inner) => add_uses(lookups, inner, used),
        Naming::Two(first, second) => {
            add_uses(lookups, first, used)?;
            add_uses(lookups, second, used)
        }
        Naming::Forms(list) => add_forms(lookups, list, used),
        Naming::Clauses(list) => add_clauses(lookups, list, used),
        Naming::Let(list, body) => {
            add_bindings(lookups, list, used)?;
            add_uses(lookups, body, used)
        }
        Naming::DynamicLet(list, body) => {
            add_dynamic_bindings(lookups, list, used)?;
            add_uses(lookups, body, used)
        }
    }
}

#[cycle(uses)]
#[tactic(auto, using(back_lowering::proofs::Sizes::flat_in_smaller))]
fn add_forms(lookups: &Lookups, list: &FlatCoreList, used: &mut UsedNames) -> Result<(), NoMemory>
    requires { HasFunctions lookups.now }
    ensures { OnOk result (AreAdded used.old (uses_of_forms lookups.now.names.now lookups.now.program.now (forms list.now)) used.new) }
{
    for at in 0..list.len() {
        let Some(form) = list.get(at) else {
            unreachable!()
        };
        add_uses(lookups, form, used)?;
    }
    Ok(())
}

#[cycle(uses)]
#[tactic(auto, using(back_lowering::proofs::Sizes::clause_in_smaller))]
fn add_clauses(
    lookups: &Lookups,
    list: &FlatClauseList,
    used: &mut UsedNames,
) -> Result<(), NoMemory>
    requires { HasFunctions lookups.now }
    ensures { OnOk result (AreAdded used.old (uses_of_clauses lookups.now.names.now lookups.now.program.now (clauses_of list.now)) used.new) }
{
    for at in 0..list.len() {
        let Some(clause) = list.get(at) else {
            unreachable!()
        };
        add_uses(lookups, &clause.test, used)?;
        add_body(lookups, &clause.body, used)?;
    }
    Ok(())
}

#[cycle(uses)]
fn add_body(
    lookups: &Lookups,
    body: &Option<FlatCore>,
    used: &mut UsedNames,
) -> Result<(), NoMemory>
    requires { HasFunctions lookups.now }
    ensures { OnOk result (AreAdded used.old (uses_of_body lookups.now.names.now lookups.now.program.now (maybe_form body.now)) used.new) }
{
    match body {
        None => Ok(()),
        Some(form) => add_uses(lookups, form, used),
    }
}

#[cycle(uses)]
#[tactic(auto, using(back_lowering::proofs::Sizes::binding_in_smaller))]
fn add_bindings(
    lookups: &Lookups,
    list: &FlatBindingList,
    used: &mut UsedNames,
) -> Result<(), NoMemory>
    requires { HasFunctions lookups.now }
    ensures { OnOk result (AreAdded used.old (uses_of_values lookups.now.names.now lookups.now.program.now (bindings_of list.now)) used.new) }
{
    for at in 0..list.len() {
        let Some(binding) = list.get(at) else {
            unreachable!()
        };
        add_uses(lookups, &binding.value, used)?;
    }
    Ok(())
}

#[cycle(uses)]
#[tactic(auto, using(back_lowering::proofs::Sizes::dynamic_in_smaller))]
fn add_dynamic_bindings(
    lookups: &Lookups,
    list: &FlatDynBindings,
    used: &mut UsedNames,
) -> Result<(), NoMemory>
    requires { HasFunctions lookups.now }
    ensures { OnOk result (AreAdded used.old (uses_of_dynamics lookups.now.names.now lookups.now.program.now (dynamics_of list.now)) used.new) }
{
    for at in 0..list.len() {
        let Some(binding) = list.get(at) else {
            unreachable!()
        };
        used.add_bound(binding.name)?;
        add_uses(lookups, &binding.value, used)?;
    }
    Ok(())
}
