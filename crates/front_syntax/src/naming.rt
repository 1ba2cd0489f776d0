// The names of generic functions: that of a symbol, or `(setf s)`.

ghost use Rattle.std.specs.Prelude.{◌≡◌, ◌≤◌, length, slice_get, Some, None, IfOk, IfSome};
ghost use Rattle.base.specs.DataNames.{symbol_text};
ghost use Rattle.lang_derived.specs.Asked.{list_items, is_text, setf_text};
ghost use Rattle.front_profile.specs.GivenNames as name;
ghost use Rattle.front_profile.specs.Shapes.{symbol_of};
ghost use Rattle.front_syntax.specs.Definitions.{borrowed, view_given, made_of_text};
ghost use Rattle.front_syntax.specs.Lacking.{text_to_set, operator_in};

use crate::shapes::symbol_of;
use base::{Bytes, Datum, Name, Names, NoMemory, Symbol, symbol_text};
use lang_derived::{is_word, list_items};
use std::alloc::Global;

// The longest name that a name `(setf s)` is made of.
const MOST_BYTES: usize = 256;

/// What stands where a name is asked: nothing that is one; a symbol of which no name is made; a name that
/// the table of names lacks; or a name.
#[derive(Clone, Copy)]
pub enum GivenName {
    NoName,
    Unfit,
    Lacking,
    Given(Name),
}

// The text `(setf s)`.
fn setf_text(alloc: Global, text: &[u8]) -> Result<Bytes, NoMemory>
    requires { length text.now ≤ 256 }
    ensures text { IfOk result (λ setter. setter ≡ setf_text text.now) }
    ensures short { IfOk result (λ setter. length setter ≤ 263) }
{
    let mut setter = Bytes::from_slice(alloc, b"(setf ")?;
    setter.append(text)?;
    setter.append(b")")?;
    Ok(setter)
}

/// The text `(setf s)` of a symbol, none where no name is made of it.
pub(crate) fn setter_text(
    alloc: Global,
    names: &Names,
    symbol: Symbol,
) -> Result<Option<Bytes>, NoMemory>
    ensures text { IfOk result (λ found. made_of_text names.now found
        ≡ name.setter_of_text names.now (symbol_text names.now symbol)) }
    ensures made { IfOk result (λ found. found ≡ text_to_set (symbol_text names.now symbol)) }
    ensures short { IfOk result (λ found. IfSome found (λ text. length text ≤ 263)) }
{
    let Some(text) = symbol_text(names, symbol) else {
        return Ok(None);
    };
    if text.len() > MOST_BYTES {
        return Ok(None);
    }
    Ok(Some(setf_text(alloc, text)?))
}

// Whether the name of that number has the text.
fn is_text(names: &Names, number: usize, text: &[u8]) -> bool
    ensures { result ≡ is_text text.now (slice_get names.now number) }
{
    match symbol_text(names, Symbol::Named(Name(number))) {
        Some(other) => other == text,
        None => false,
    }
}

// The name of a text, where the table has it.
#[tactic(auto, using(crate::proofs::TextNumbers::from_start, crate::proofs::TextNumbers::other_seen, crate::proofs::TextNumbers::found_here, crate::proofs::TextNumbers::none_left))]
fn name_of_text(names: &Names, text: &[u8]) -> GivenName
    ensures { view_given result ≡ name.in_table (name.number_of names.now text.now) }
{
    for number in 0..names.len() {
        if is_text(names, number, text) {
            return GivenName::Given(Name(number));
        }
    }
    GivenName::Lacking
}

/// The name `(setf s)` of a symbol.
pub(crate) fn setter_of(alloc: Global, names: &Names, symbol: Symbol) -> Result<GivenName, NoMemory>
    ensures { IfOk result (λ found. view_given found
        ≡ name.setter_of_text names.now (symbol_text names.now symbol)) }
{
    match setter_text(alloc, names, symbol)? {
        Some(text) => Ok(name_of_text(names, text.as_slice())),
        None => Ok(GivenName::Unfit),
    }
}

/// The datum s of a list `(setf s)`.
pub(crate) fn operator_in<'a>(names: &Names, datum: &'a Datum) -> Option<&'a Datum>
    ensures { borrowed result ≡ operator_in names.now (list_items datum.now) }
{
    let [head, operator] = list_items(datum)? else {
        return None;
    };
    if is_word(names, b"setf", head) {
        Some(operator)
    } else {
        None
    }
}

// The symbol s of a list `(setf s)`.
#[tactic(auto, using(crate::proofs::AskedNames::setter_of_operator))]
fn symbol_to_set(names: &Names, datum: &Datum) -> Option<Symbol>
    ensures { name.setter_of_symbol names.now result ≡ name.setter_in names.now (list_items datum.now) }
{
    symbol_of(operator_in(names, datum)?)
}

/// The name that a datum gives to a generic function.
pub fn given_name(alloc: Global, names: &Names, datum: &Datum) -> Result<GivenName, NoMemory>
    ensures { IfOk result (λ found. view_given found ≡ name.given_name names.now datum.now) }
{
    match symbol_of(datum) {
        Some(Symbol::Named(name)) => Ok(GivenName::Given(name)),
        Some(Symbol::Fresh { .. }) => Ok(GivenName::Unfit),
        None => match symbol_to_set(names, datum) {
            Some(symbol) => setter_of(alloc, names, symbol),
            None => Ok(GivenName::NoName),
        },
    }
}
