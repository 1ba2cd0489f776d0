// The functions of names.

ghost use Rattle.std.specs.Prelude.{◌≡◌, ℕ, ◌*◌, ◌<◌, Some, length, OnOk, IfOk, slice_get, List};
ghost use Rattle.lang_meaning.specs.declared.program.FunctionRow.{FunctionRow};
ghost use Rattle.mid_start.specs.Laying.{HasRoom};
ghost use Rattle.lang_meaning.specs.Recipes.{callee_recipe, function_recipe, in_turn};
ghost use Rattle.mid_start.specs.Making.{IsWord, EachStandsFor, Makes, IsWithin};
ghost use Rattle.mid_start.specs.Rows.{CalleeFits};

use crate::ArenaWords;
use base::{NoMemory, WordList};
use lang_meaning::{Callee, FunctionRows};
use mid_arena::words::{FUNCTION, GENERIC, OBJECT};
use std::alloc::Global;

/// The function of a procedure, with its number, or a generic function is laid; its word.
pub fn lay_function(callee: Callee, words: &mut ArenaWords) -> Result<u32, NoMemory>
    requires fits { CalleeFits callee }
    requires room { HasRoom words.old 2 }
    ensures within { OnOk result (IsWithin words.old words.new 2) }
    ensures made { IfOk result (λ w. (names : List (List ℕ)) → Makes names IsWord (callee_recipe callee) words.old words.new w) }
{
    let word = words.end_address() + OBJECT;
    match callee {
        Callee::Procedure(procedure) => {
            words.words.push(FUNCTION)?;
            words.words.push(procedure as u32)?;
        }
        Callee::Generic(generic) => {
            words.words.push(GENERIC)?;
            words.words.push(4 * generic as u32)?;
        }
    }
    Ok(word)
}

/// The functions of all names are laid; the word of each.
pub fn lay_functions(
    alloc: Global,
    rows: &FunctionRows,
    words: &mut ArenaWords,
) -> Result<WordList, NoMemory>
    requires fits { (i : ℕ) (f : FunctionRow) → slice_get rows.now i ≡ Some f → CalleeFits f.callee }
    requires room { HasRoom words.old (2 * length rows.now) }
    ensures within { OnOk result (IsWithin words.old words.new (2 * length rows.now)) }
    ensures made { IfOk result (λ ws. (names : List (List ℕ)) → Makes names (EachStandsFor IsWord) (in_turn function_recipe rows.now) words.old words.new ws) }
{
    let mut laid = WordList::new(alloc);
    for at in 0..rows.len() {
        let Some(row) = rows.get(at) else {
            unreachable!()
        };
        let word = lay_function(row.callee, words)?;
        laid.push(word)?;
    }
    Ok(laid)
}
