// The symbols of names.

ghost use Rattle.std.specs.Prelude.{◌≡◌, ◌<◌, length, OnOk, IfOk};
ghost use Rattle.base.specs.declared.datum.Symbol.TheVariants.{Named};
ghost use Rattle.base.specs.Data as data_specs;
ghost use Rattle.lang_meaning.specs.State.{no_place};
ghost use Rattle.mid_start.specs.Laying.{HasRoom, Grown};
ghost use Rattle.mid_start.specs.Recipes.{name_recipe};
ghost use Rattle.mid_start.specs.Making.{IsWord, Makes, IsWithin};

use crate::{ArenaWords, lay_datum};
use base::{Datum, Kind, Name, Names, NoMemory, Place, Symbol};
use std::alloc::Global;

/// The place of data that no text has.
pub const NOWHERE: Place = Place { line: 0, column: 0 };

/// The symbol of a name is laid, if it is not there; its word.
pub fn lay_name(
    alloc: Global,
    name: Name,
    names: &Names,
    words: &mut ArenaWords,
) -> Result<u32, NoMemory>
    requires named { name.0 < length names.now }
    requires room { HasRoom words.old 70 }
    ensures grown { OnOk result (Grown words.old words.new) }
    ensures within { OnOk result (IsWithin words.old words.new 70) }
    ensures made { IfOk result (λ w. Makes names.now IsWord (name_recipe names.now name) words.old words.new w) }
{
    let symbol = symbol_of_name(name);
    lay_datum(alloc, &symbol, names, words)
}

/// The datum that is the symbol of a name.
pub fn symbol_of_name(name: Name) -> Datum
    ensures { result ≡ data_specs.item no_place (data_specs.symbol (Named name)) }
{
    Datum::new(NOWHERE, Kind::Sym(Symbol::Named(name)))
}
