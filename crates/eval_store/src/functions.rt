// The functions of names.

ghost use Rattle.std.specs.Prelude.{◌≡◌, ◌<◌, [], IfOk, OnOk, length};
ghost use Rattle.eval_store.specs.Words.{values_of};
ghost use Rattle.lang_meaning.specs.Recipes.{in_turn, function_recipe};
ghost use Rattle.eval_store.specs.Recipes.{IsMadeBy};
ghost use Rattle.eval_store.specs.Tables.{entry_of, IsAlike, IsSet, IsFunctionObject, IsNoting, AreNamed};

use crate::making::add_object;
use crate::{Object, Spellings, Store, Word};
use base::{ItemList, Name, NoMemory};
use lang_meaning::{Callee, FunctionRows};
use std::alloc::Global;

/// The function of a name: what the name calls, and its word.
#[derive(Clone, Copy)]
pub struct NamedFunction {
    pub callee: Callee,
    pub word: Word,
}

/// The functions of names, by the numbers by which names are told apart.
#[derive(Drop)]
pub struct NamedFunctions {
    spellings: Spellings,
    entries: ItemList<Option<NamedFunction>>,
}

impl NamedFunctions {
    // No name has a function yet. Takes no memory.
    fn new(alloc: Global, spellings: Spellings) -> NamedFunctions
        ensures { (result.entries ≡ []) × (result.spellings ≡ spellings) }
    {
        NamedFunctions {
            spellings,
            entries: ItemList::new(alloc),
        }
    }

    /// The function of a name, if it has one.
    pub fn get(&self, name: Name) -> Option<NamedFunction>
        ensures { result ≡ entry_of self.now name.0 }
    {
        match self.entries.get(self.spellings.number(name)) {
            Some(entry) => *entry,
            None => None,
        }
    }

    // A name has that function from now on.
    fn set(&mut self, name: Name, function: NamedFunction) -> Result<(), NoMemory>
        ensures { OnOk result (IsSet self.old name.0 function self.new) }
    {
        let number = self.spellings.number(name);
        self.reach(number)?;
        self.entries.replace(number, Some(function));
        Ok(())
    }

    #[tactic(auto, using(crate::proofs::Named::alike_more, crate::proofs::Named::alike_after, crate::proofs::Named::alike_itself))]
    // There is room for a number.
    fn reach(&mut self, number: usize) -> Result<(), NoMemory>
        ensures reached { OnOk result (number < length self.new.entries) }
        ensures alike { IsAlike self.old self.new }
    {
        while self.entries.len() <= number {
            self.entries.push(None)?;
        }
        Ok(())
    }
}

/// The objects of the functions of names are made, and the functions stand by their names.
pub fn lay_functions(
    alloc: Global,
    spellings: Spellings,
    rows: &FunctionRows,
    store: &mut Store,
) -> Result<NamedFunctions, NoMemory>
    ensures { IfOk result (λ functions. AreNamed spellings rows.now store.old store.new functions) }
{
    let words = add_functions(alloc, rows, store)?;
    by_name(alloc, spellings, rows, &words)
}

// The objects of all functions; the word of each.
#[tactic(auto, using(crate::proofs::Turns::none_made))]
fn add_functions(
    alloc: Global,
    rows: &FunctionRows,
    store: &mut Store,
) -> Result<ItemList<Word>, NoMemory>
    ensures { IfOk result (λ ws. IsMadeBy values_of (λ names. in_turn function_recipe rows.now) store.old store.new ws) }
{
    let mut words = ItemList::new(alloc);
    for at in 0..rows.len() {
        let Some(row) = rows.get(at) else {
            unreachable!()
        };
        let word = add_object(store, function_object(row.callee))?;
        words.push(word)?;
    }
    Ok(words)
}

fn function_object<'p>(callee: Callee) -> Object<'p>
    ensures { IsFunctionObject callee result }
{
    match callee {
        Callee::Procedure(procedure) => Object::Function(procedure),
        Callee::Generic(generic) => Object::Generic(generic),
    }
}

// The functions with these words, by their names: of rows with the same name the first one counts.
#[tactic(auto, using(crate::proofs::Named::none_noted))]
fn by_name(
    alloc: Global,
    spellings: Spellings,
    rows: &FunctionRows,
    words: &ItemList<Word>,
) -> Result<NamedFunctions, NoMemory>
    ensures { IfOk result (λ functions. IsNoting spellings rows.now words.now functions) }
{
    let mut functions = NamedFunctions::new(alloc, spellings);
    let mut at = rows.len();
    while at > 0 {
        at -= 1;
        let Some(row) = rows.get(at) else {
            unreachable!()
        };
        if let Some(word) = words.get(at) {
            let function = NamedFunction {
                callee: row.callee,
                word: *word,
            };
            functions.set(row.name, function)?;
        }
    }
    Ok(functions)
}
