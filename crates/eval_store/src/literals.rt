// The objects of literals.

ghost use Rattle.std.specs.Prelude.{◌≡◌, ℕ, List, IfOk};
ghost use Rattle.eval_store.specs.Words.{value_of_word, values_of};
ghost use Rattle.lang_meaning.specs.Recipes.{in_turn, literal_recipe};
ghost use Rattle.eval_store.specs.Recipes.{IsMadeBy};

use crate::datum::lay_datum;
use crate::{Store, Word};
use base::{ItemList, NoMemory};
use lang_meaning::{LiteralRow, LiteralRows};
use std::alloc::Global;

/// The objects of all literals are made; the word of each.
#[tactic(auto, using(crate::proofs::Turns::none_made))]
pub fn lay_literals(
    alloc: Global,
    rows: &LiteralRows,
    store: &mut Store,
) -> Result<ItemList<Word>, NoMemory>
    ensures { IfOk result (λ ws. IsMadeBy values_of (λ names. in_turn (literal_recipe names) rows.now) store.old store.new ws) }
{
    let mut words = ItemList::new(alloc);
    for at in 0..rows.len() {
        let Some(row) = rows.get(at) else {
            unreachable!()
        };
        let word = lay_literal(alloc, row, store)?;
        words.push(word)?;
    }
    Ok(words)
}

// Only a datum makes objects.
#[tactic(auto, using(crate::proofs::Made::atom_made))]
fn lay_literal(alloc: Global, row: &LiteralRow, store: &mut Store) -> Result<Word, NoMemory>
    ensures { IfOk result (λ w. IsMadeBy value_of_word (λ names. literal_recipe names row.now) store.old store.new w) }
{
    match row {
        LiteralRow::Datum(datum) => lay_datum(alloc, datum, store),
        LiteralRow::Class(_) => Ok(Word::Nil),
        LiteralRow::Function(_) => Ok(Word::Nil),
    }
}
