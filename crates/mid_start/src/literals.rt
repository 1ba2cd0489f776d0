// Literals.

ghost use Rattle.std.specs.Prelude.{◌≡◌, ℕ, ◌*◌, ◌<◌, Some, length, OnOk, IfOk, slice_get};
ghost use Rattle.std.specs.List.{sum_by};
ghost use Rattle.lang_meaning.specs.declared.program.LiteralRow.{LiteralRow};
ghost use Rattle.mid_start.specs.Laying.{HasRoom};
ghost use Rattle.lang_meaning.specs.Recipes.{literal_recipe, in_turn};
ghost use Rattle.mid_start.specs.Making.{IsWord, EachStandsFor, Makes, IsWithin};
ghost use Rattle.mid_start.specs.Rows.{LiteralFits, most_literal_words};

use crate::{ArenaWords, lay_datum};
use base::{Names, NoMemory, WordList};
use lang_meaning::{LiteralRow, LiteralRows};
use mid_arena::words::NIL;
use std::alloc::Global;

/// All literals are laid; the word of each that is a datum, and of nil for the others.
pub fn lay_literals(
    alloc: Global,
    rows: &LiteralRows,
    names: &Names,
    words: &mut ArenaWords,
) -> Result<WordList, NoMemory>
    requires fits { (i : ℕ) (l : LiteralRow) → slice_get rows.now i ≡ Some l → LiteralFits (length names.now) l }
    requires room { HasRoom words.old (sum_by most_literal_words rows.now) }
    ensures within { OnOk result (IsWithin words.old words.new (sum_by most_literal_words rows.now)) }
    ensures made { IfOk result (λ ws. Makes names.now (EachStandsFor IsWord) (in_turn (literal_recipe names.now) rows.now) words.old words.new ws) }
{
    let mut laid = WordList::new(alloc);
    for at in 0..rows.len() {
        let Some(row) = rows.get(at) else {
            unreachable!()
        };
        let word = lay_literal(alloc, row, names, words)?;
        laid.push(word)?;
    }
    Ok(laid)
}

// Only a datum makes objects.
fn lay_literal(
    alloc: Global,
    row: &LiteralRow,
    names: &Names,
    words: &mut ArenaWords,
) -> Result<u32, NoMemory>
    requires fits { LiteralFits (length names.now) row.now }
    requires room { HasRoom words.old (most_literal_words row.now) }
    ensures within { OnOk result (IsWithin words.old words.new (most_literal_words row.now)) }
    ensures made { IfOk result (λ w. Makes names.now IsWord (literal_recipe names.now row.now) words.old words.new w) }
{
    match row {
        LiteralRow::Datum(datum) => lay_datum(alloc, datum, names, words),
        LiteralRow::Class(_) => Ok(NIL),
        LiteralRow::Function(_) => Ok(NIL),
    }
}
