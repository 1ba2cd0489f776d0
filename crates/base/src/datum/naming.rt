// The text of a symbol's name, and of a datum that is one.

ghost use Rattle.std.specs.Prelude.{◌≡◌, Some, None, MatchOption};
ghost use Rattle.base.specs.DataNames.{symbol_text, text_of};

use crate::datum::{Datum, Kind, Symbol};
use crate::names::Names;

/// The name of a symbol, where a text names it.
pub fn symbol_text<'n>(names: &'n Names, symbol: Symbol) -> Option<&'n [u8]>
    ensures { MatchOption result (symbol_text names.now symbol ≡ None) (λ text. symbol_text names.now symbol ≡ Some text.now) }
{
    match symbol {
        Symbol::Named(name) => names.text(name),
        Symbol::Fresh { .. } => None,
    }
}

/// The name of a symbol; none of a fresh one, and of what is no symbol.
pub fn text_of<'n>(names: &'n Names, datum: &Datum) -> Option<&'n [u8]>
    ensures { MatchOption result (text_of names.now datum.now ≡ None) (λ text. text_of names.now datum.now ≡ Some text.now) }
{
    match &datum.kind {
        Kind::Sym(symbol) => symbol_text(names, *symbol),
        Kind::Int(_) => None,
        Kind::Char(_) => None,
        Kind::Str(_) => None,
        Kind::Vector(_) => None,
        Kind::Nil => None,
        Kind::List { .. } => None,
    }
}
