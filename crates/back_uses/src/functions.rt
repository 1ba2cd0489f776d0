// The functions of names, as forms use them: where one is not there, a condition has its name.

ghost use Rattle.std.specs.Prelude.{◌≡◌, OnOk, slice_get, is_some};
ghost use Rattle.lang_meaning.specs.Literals.{function_row};
ghost use Rattle.lang_meaning.specs.Lookup.{text};
ghost use Rattle.back_words.specs.Uses.{of_function, of_literal};
ghost use Rattle.back_uses.specs.Functions.{HasFunctions};
ghost use Rattle.back_uses.specs.Used.{AreAdded};

use crate::used::UsedNames;
use base::{ItemList, Name, Names, NoMemory};
use flat_language::FlatProgram;
use lang_meaning::{FunctionRow, LiteralId, LiteralRow};

// A program, and what its names are looked up in.
#[derive(Clone, Copy)]
pub(crate) struct Lookups<'p> {
    pub names: &'p Names,
    pub program: &'p FlatProgram,
    // the function of each name of the table
    pub rows: &'p ItemList<Option<FunctionRow>>,
    // and that of each other one
    pub unnamed: Option<FunctionRow>,
}

// What a literal names: a function, where it is that of a name.
pub(crate) fn add_literal(
    lookups: &Lookups,
    literal: LiteralId,
    used: &mut UsedNames,
) -> Result<(), NoMemory>
    requires { HasFunctions lookups.now }
    ensures { OnOk result (AreAdded used.old (of_literal lookups.now.names.now lookups.now.program.now (slice_get lookups.now.program.now.literals literal)) used.new) }
{
    match lookups.program.literals.get(literal) {
        Some(LiteralRow::Function(name)) => add_function(lookups, *name, used),
        Some(LiteralRow::Datum(_)) => Ok(()),
        Some(LiteralRow::Class(_)) => Ok(()),
        None => Ok(()),
    }
}

// What a call of a name's function names: a condition, where the function is not there.
pub(crate) fn add_function(
    lookups: &Lookups,
    name: Name,
    used: &mut UsedNames,
) -> Result<(), NoMemory>
    requires { HasFunctions lookups.now }
    ensures { OnOk result (AreAdded used.old (of_function lookups.now.names.now lookups.now.program.now name.0) used.new) }
{
    if has_function(lookups, name) {
        Ok(())
    } else {
        used.add_symbol(name)
    }
}

// Whether there is a function of a name.
fn has_function(lookups: &Lookups, name: Name) -> bool
    requires { HasFunctions lookups.now }
    ensures { result ≡ is_some (function_row lookups.now.names.now lookups.now.program.now.functions (text lookups.now.names.now name.0)) }
{
    match lookups.rows.get(name.0) {
        Some(row) => row.is_some(),
        None => lookups.unnamed.is_some(),
    }
}
