// What a row asks of a datum: whether it is a symbol, of that name, and the items of a list.

ghost use Rattle.std.specs.Prelude.{◌≡◌, Some, None, MatchOption};
ghost use Rattle.lang_derived.specs.Asked.{is_word, is_symbol, list_items};

use base::{Datum, Kind, Names, text_of};

/// Whether it is the symbol of that name.
pub fn is_word(names: &Names, text: &[u8], datum: &Datum) -> bool
    ensures { result ≡ is_word names.now text.now datum.now }
{
    match text_of(names, datum) {
        Some(name) => name == text,
        None => false,
    }
}

/// Whether it is a symbol, named or fresh; nil is none.
pub(crate) fn is_symbol(datum: &Datum) -> bool
    ensures { result ≡ is_symbol datum.now }
{
    match &datum.kind {
        Kind::Sym(_) => true,
        Kind::Int(_) => false,
        Kind::Char(_) => false,
        Kind::Str(_) => false,
        Kind::Vector(_) => false,
        Kind::Nil => false,
        Kind::List { .. } => false,
    }
}

/// The items of a list without a dot; nil is the list without items.
#[tactic(auto, using(crate::proofs::Lists::shown_items))]
pub fn list_items<'a>(datum: &'a Datum) -> Option<&'a [Datum]>
    ensures { MatchOption result (list_items datum.now ≡ None) (λ items. list_items datum.now ≡ Some items.now) }
{
    match &datum.kind {
        Kind::Nil => Some(&[]),
        Kind::List { items, tail } => match tail {
            None => Some(items.as_slice()),
            Some(_) => None,
        },
        Kind::Int(_) => None,
        Kind::Char(_) => None,
        Kind::Sym(_) => None,
        Kind::Str(_) => None,
        Kind::Vector(_) => None,
    }
}
