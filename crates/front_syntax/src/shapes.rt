// The shapes that rows ask of data: names, lists of bindings, lambda lists, clauses and tags.

ghost use Rattle.std.specs.Prelude.{◌≡◌, IfOk};
ghost use Rattle.std.specs.List.{list_any};
ghost use Rattle.lang_derived.specs.Asked.{list_items};
ghost use Rattle.front_profile.specs.DefiningRows as row;
ghost use Rattle.front_profile.specs.Names.{same_symbol};
ghost use Rattle.front_profile.specs.Shapes as shape;
ghost use Rattle.front_profile.specs.Shapes.{symbol_of, is_true, is_rest, all_differ, pairs_in, parameters_in, clauses_in, tags_in, forms_in, lengths_in};
ghost use Rattle.front_syntax.specs.Behind.{parameters_behind};
ghost use Rattle.front_syntax.specs.Views.{maybe_pair, view_pairs, maybe_pairs, maybe_clause, maybe_clauses, data_of};

use base::{Datum, FreshList, ItemList, Kind, Name, NoMemory, Symbol};
use front_profile::{Lengths, Parameters, ReservedWords};
use lang_derived::list_items;
use std::alloc::Global;

/// A binding: a name, and a datum.
#[derive(Clone, Copy)]
pub struct Pair<'a> {
    pub name: Symbol,
    pub datum: &'a Datum,
}

pub type PairList<'a> = ItemList<Pair<'a>>;

/// A clause of `cond`: its test, and the forms of its body.
#[derive(Clone, Copy)]
pub struct ClauseParts<'a> {
    pub test: &'a Datum,
    pub body: &'a [Datum],
}

pub type Clauses<'a> = ItemList<ClauseParts<'a>>;

/// The symbol that a datum is; nil is none.
pub fn symbol_of(datum: &Datum) -> Option<Symbol>
    ensures { result ≡ symbol_of datum.now }
{
    match &datum.kind {
        Kind::Sym(symbol) => Some(*symbol),
        Kind::Int(_) => None,
        Kind::Char(_) => None,
        Kind::Str(_) => None,
        Kind::Vector(_) => None,
        Kind::Nil => None,
        Kind::List { .. } => None,
    }
}

/// Whether both are the same symbol.
pub(crate) fn same_symbol(x: Symbol, y: Symbol) -> bool
    ensures { result ≡ same_symbol x y }
{
    match (x, y) {
        (Symbol::Named(n), Symbol::Named(m)) => n.0 == m.0,
        (
            Symbol::Fresh { expansion, serial },
            Symbol::Fresh {
                expansion: other,
                serial: later,
            },
        ) => expansion == other && serial == later,
        (Symbol::Named(_), Symbol::Fresh { .. }) => false,
        (Symbol::Fresh { .. }, Symbol::Named(_)) => false,
    }
}

/// The name of a symbol, which a fresh one has not.
pub fn name_of(symbol: Symbol) -> Option<Name>
    ensures { result ≡ shape.name_of symbol }
{
    match symbol {
        Symbol::Named(name) => Some(name),
        Symbol::Fresh { .. } => None,
    }
}

/// The name that a definition gives: a symbol with a name.
pub fn named(datum: &Datum) -> Option<Name>
    ensures { result ≡ row.named (symbol_of datum.now) }
{
    name_of(symbol_of(datum)?)
}

fn is_name(name: Name, symbol: Symbol) -> bool
    ensures { result ≡ shape.is_name name symbol }
{
    match symbol {
        Symbol::Named(other) => name.0 == other.0,
        Symbol::Fresh { .. } => false,
    }
}

/// Whether it is `t`.
pub fn is_true(words: ReservedWords, symbol: Symbol) -> bool
    ensures { result ≡ is_true words symbol }
{
    is_name(words.truth, symbol)
}

// Whether it stands in front of a rest variable.
fn is_rest(words: ReservedWords, symbol: Symbol) -> bool
    ensures { result ≡ is_rest words symbol }
{
    is_name(words.rest, symbol) || is_name(words.and_rest, symbol)
}

// Whether the symbol is among these.
fn has_symbol(symbols: &[Symbol], symbol: Symbol) -> bool
    ensures { result ≡ list_any (same_symbol symbol) symbols.now }
{
    for other in symbols {
        if same_symbol(symbol, *other) {
            return true;
        }
    }
    false
}

/// Whether no two are the same.
pub fn all_differ(symbols: &[Symbol]) -> bool
    ensures { result ≡ all_differ symbols.now }
{
    let Some((first, others)) = symbols.split_first() else {
        return true;
    };
    !has_symbol(others, *first) && all_differ(others)
}

// The variable that a datum is: a symbol that is not `t`.
fn variable_in(words: ReservedWords, datum: &Datum) -> Option<Symbol>
    ensures { result ≡ shape.variable_in words (symbol_of datum.now) }
{
    let symbol = symbol_of(datum)?;
    if is_true(words, symbol) {
        None
    } else {
        Some(symbol)
    }
}

// The binding that a datum is.
fn pair_in<'a>(words: ReservedWords, datum: &'a Datum) -> Option<Pair<'a>>
    ensures { maybe_pair result ≡ shape.pair_in words datum.now }
{
    let items = list_items(datum)?;
    let [name, value] = items else {
        return None;
    };
    let name = variable_in(words, name)?;
    Some(Pair { name, datum: value })
}

// The bindings that these data are.
fn each_pair<'a>(
    alloc: Global,
    words: ReservedWords,
    items: &'a [Datum],
) -> Result<Option<PairList<'a>>, NoMemory>
    ensures { IfOk result (λ found. maybe_pairs found ≡ shape.each_pair words items.now) }
{
    let mut pairs = PairList::new(alloc);
    for item in items {
        let Some(pair) = pair_in(words, item) else {
            return Ok(None);
        };
        pairs.push(pair)?;
    }
    Ok(Some(pairs))
}

// The names of these bindings.
fn names_of_pairs(alloc: Global, pairs: &PairList) -> Result<FreshList, NoMemory>
    ensures { IfOk result (λ names. names ≡ shape.names_of_pairs (view_pairs pairs.now)) }
{
    let mut names = FreshList::new(alloc);
    for pair in pairs.as_slice() {
        names.push(pair.name)?;
    }
    Ok(names)
}

/// The bindings of a `let`, none where the list is not allowed: each is a list of a variable and a
/// form, and no name stands twice.
pub fn pairs_in<'a>(
    alloc: Global,
    words: ReservedWords,
    datum: &'a Datum,
) -> Result<Option<PairList<'a>>, NoMemory>
    ensures { IfOk result (λ found. maybe_pairs found ≡ pairs_in words datum.now) }
{
    let Some(items) = list_items(datum) else {
        return Ok(None);
    };
    let Some(pairs) = each_pair(alloc, words, items)? else {
        return Ok(None);
    };
    let names = names_of_pairs(alloc, &pairs)?;
    if all_differ(names.as_slice()) {
        Ok(Some(pairs))
    } else {
        Ok(None)
    }
}

/// The variable of a lambda list that a datum is: none of the two words either.
pub(crate) fn parameter_in(words: ReservedWords, datum: &Datum) -> Option<Symbol>
    ensures { result ≡ shape.parameter_in words (symbol_of datum.now) }
{
    let symbol = symbol_of(datum)?;
    if is_true(words, symbol) || is_rest(words, symbol) {
        None
    } else {
        Some(symbol)
    }
}

/// Whether a datum is the word in front of a rest variable.
pub(crate) fn is_rest_word(words: ReservedWords, datum: &Datum) -> bool
    ensures { result ≡ shape.is_rest_word words (symbol_of datum.now) }
{
    match symbol_of(datum) {
        Some(symbol) => is_rest(words, symbol),
        None => false,
    }
}

/// What stands behind that word: one variable.
pub(crate) fn behind_rest(words: ReservedWords, items: &[Datum]) -> Option<Symbol>
    ensures { shape.rest_alone result ≡ shape.behind_rest words items.now }
{
    let [item] = items else {
        return None;
    };
    parameter_in(words, item)
}

// The variables in a lambda list's items; `required` are those that stand in front of these.
#[tactic(auto, using(crate::proofs::Shaping::required_turn))]
fn parameters_behind(
    words: ReservedWords,
    items: &[Datum],
    required: FreshList,
) -> Result<Option<Parameters>, NoMemory>
    ensures { IfOk result (λ found. found ≡ parameters_behind required (shape.parameters_of words items.now)) }
{
    let mut required = required;
    for at in 0..items.len() {
        let item = &items[at];
        if is_rest_word(words, item) {
            let Some(rest) = behind_rest(words, &items[at + 1..]) else {
                return Ok(None);
            };
            return Ok(Some(Parameters {
                required,
                rest: Some(rest),
            }));
        }
        let Some(symbol) = parameter_in(words, item) else {
            return Ok(None);
        };
        required.push(symbol)?;
    }
    Ok(Some(Parameters {
        required,
        rest: None,
    }))
}

/// All variables of a lambda list.
pub fn all_symbols(alloc: Global, parameters: &Parameters) -> Result<FreshList, NoMemory>
    ensures { IfOk result (λ symbols. symbols ≡ shape.all_symbols parameters.now) }
{
    let mut symbols = FreshList::new(alloc);
    for symbol in parameters.required.as_slice() {
        symbols.push(*symbol)?;
    }
    if let Some(symbol) = parameters.rest {
        symbols.push(symbol)?;
    }
    Ok(symbols)
}

/// The variables of a lambda list, none where it is not allowed: required variables, and a rest
/// variable behind `:rest` or `&rest`; no name stands twice.
pub fn parameters_in(
    alloc: Global,
    words: ReservedWords,
    datum: &Datum,
) -> Result<Option<Parameters>, NoMemory>
    ensures { IfOk result (λ found. found ≡ parameters_in words datum.now) }
{
    let Some(items) = list_items(datum) else {
        return Ok(None);
    };
    let Some(parameters) = parameters_behind(words, items, FreshList::new(alloc))? else {
        return Ok(None);
    };
    let symbols = all_symbols(alloc, &parameters)?;
    if all_differ(symbols.as_slice()) {
        Ok(Some(parameters))
    } else {
        Ok(None)
    }
}

// The clause that a datum is: a list without a dot that begins with a test.
fn clause_in<'a>(datum: &'a Datum) -> Option<ClauseParts<'a>>
    ensures { maybe_clause result ≡ shape.clause_of (list_items datum.now) }
{
    let [test, body @ ..] = list_items(datum)? else {
        return None;
    };
    Some(ClauseParts { test, body })
}

/// The clauses that these data are.
pub fn clauses_in<'a>(alloc: Global, items: &'a [Datum]) -> Result<Option<Clauses<'a>>, NoMemory>
    ensures { IfOk result (λ found. maybe_clauses found ≡ clauses_in items.now) }
{
    let mut clauses = Clauses::new(alloc);
    for item in items {
        let Some(clause) = clause_in(item) else {
            return Ok(None);
        };
        clauses.push(clause)?;
    }
    Ok(Some(clauses))
}

/// The tags of a `tagbody`, in their order: a symbol is a tag.
pub fn tags_in(alloc: Global, items: &[Datum]) -> Result<FreshList, NoMemory>
    ensures { IfOk result (λ tags. tags ≡ tags_in items.now) }
{
    let mut tags = FreshList::new(alloc);
    for item in items {
        if let Some(symbol) = symbol_of(item) {
            tags.push(symbol)?;
        }
    }
    Ok(tags)
}

/// Its forms.
pub fn forms_in<'a>(alloc: Global, items: &'a [Datum]) -> Result<ItemList<&'a Datum>, NoMemory>
    ensures { IfOk result (λ forms. data_of forms ≡ forms_in items.now) }
{
    let mut forms = ItemList::new(alloc);
    for item in items {
        if symbol_of(item).is_none() {
            forms.push(item)?;
        }
    }
    Ok(forms)
}

/// How many forms stand in each of its segments.
#[tactic(auto, using(crate::proofs::Shaping::form_turn, crate::proofs::Shaping::tag_turn))]
pub fn lengths_in(alloc: Global, items: &[Datum]) -> Result<Lengths, NoMemory>
    ensures { IfOk result (λ lengths. lengths ≡ lengths_in items.now) }
{
    let mut lengths = Lengths::new(alloc);
    let mut length: usize = 0;
    for item in items {
        match symbol_of(item) {
            Some(_) => {
                lengths.push(length)?;
                length = 0;
            }
            None => length += 1,
        }
    }
    lengths.push(length)?;
    Ok(lengths)
}
