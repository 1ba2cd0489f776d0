// The names that the forms of a whole program use.

ghost use Rattle.std.specs.Prelude.{IfOk, OnOk, flat_map, map};
ghost use Rattle.lang_meaning.specs.declared.program.GenericRow.{GenericRow};
ghost use Rattle.flat_language.specs.declared.program.FlatProcedure.{FlatProcedure};
ghost use Rattle.back_words.specs.Uses.{as_symbol, uses, program_uses};
ghost use Rattle.back_uses.specs.Functions.{HasFunctions, AreFunctions};
ghost use Rattle.back_uses.specs.Used.{AreUsed, AreAdded};

use crate::forms::add_uses;
use crate::functions::Lookups;
use crate::used::UsedNames;
use base::{ItemList, Names, NoMemory};
use flat_language::{FlatCoreList, FlatProcedureList, FlatProgram};
use lang_meaning::{FunctionRow, GenericRows};
use std::alloc::Global;

/// The names that the forms of a program use. `rows` has the function of each name of the table, by
/// its number; `unnamed` is that of any other name.
pub fn used_names(
    alloc: Global,
    names: &Names,
    program: &FlatProgram,
    rows: &ItemList<Option<FunctionRow>>,
    unnamed: Option<FunctionRow>,
) -> Result<UsedNames, NoMemory>
    requires { AreFunctions names.now program.now.functions rows.now unnamed }
    ensures { IfOk result (λ used. AreUsed (program_uses names.now program.now) used) }
{
    let lookups = Lookups {
        names,
        program,
        rows,
        unnamed,
    };
    let mut used = UsedNames::new(alloc);
    add_bodies(&lookups, &program.procedures, &mut used)?;
    add_bodies(&lookups, &program.lambdas, &mut used)?;
    add_main(&lookups, &program.main, &mut used)?;
    add_generics(&program.generics, &mut used)?;
    Ok(used)
}

// Those that the bodies of procedures use.
fn add_bodies(
    lookups: &Lookups,
    procedures: &FlatProcedureList,
    used: &mut UsedNames,
) -> Result<(), NoMemory>
    requires { HasFunctions lookups.now }
    ensures { OnOk result (AreAdded used.old (flat_map (λ (q : FlatProcedure). uses lookups.now.names.now lookups.now.program.now q.body) procedures.now) used.new) }
{
    for at in 0..procedures.len() {
        let Some(procedure) = procedures.get(at) else {
            unreachable!()
        };
        add_uses(lookups, &procedure.body, used)?;
    }
    Ok(())
}

// Those that main forms use.
fn add_main(lookups: &Lookups, main: &FlatCoreList, used: &mut UsedNames) -> Result<(), NoMemory>
    requires { HasFunctions lookups.now }
    ensures { OnOk result (AreAdded used.old (flat_map (uses lookups.now.names.now lookups.now.program.now) main.now) used.new) }
{
    for at in 0..main.len() {
        let Some(form) = main.get(at) else {
            unreachable!()
        };
        add_uses(lookups, form, used)?;
    }
    Ok(())
}

// Conditions name generic functions.
fn add_generics(generics: &GenericRows, used: &mut UsedNames) -> Result<(), NoMemory>
    ensures { OnOk result (AreAdded used.old (map (λ (g : GenericRow). as_symbol g.name.0) generics.now) used.new) }
{
    for at in 0..generics.len() {
        let Some(generic) = generics.get(at) else {
            unreachable!()
        };
        used.add_symbol(generic.name)?;
    }
    Ok(())
}
