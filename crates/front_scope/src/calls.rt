// Calls of macros: the steps and the expansions that are taken before a form is judged.

ghost use Rattle.std.specs.Prelude.{◌≡◌, length, is_some, take, IfOk, IfErr};
ghost use Rattle.base.specs.Names.{Extends};
ghost use Rattle.base.specs.DataNames.{symbol_text as text_of_symbol};
ghost use Rattle.base.specs.WellFormedData.{WellFormed};
ghost use Rattle.front_profile.specs.Marks.{TablesGrow};
ghost use Rattle.front_profile.specs.Promises.{FormStops, settled_datum};
ghost use Rattle.front_profile.specs.Rows as row;
ghost use Rattle.front_profile.specs.Sound.{weight};
ghost use Rattle.front_drafts.specs.Views.{at};
ghost use Rattle.front_programs.specs.Calls.{Begun};
ghost use Rattle.front_scope.specs.Calls.{NodeEnds, Calls, CallGives, TurnGives, Settled as IsSettled};

use base::{Datum, ItemList, Name, Names, Reason, Stop, Symbol, symbol_text};
use front_context::Bindings;
use front_forms::settle;
use front_profile::{MacroRow, Spot, Tables, special_named};
use front_programs::{Expanding, MacroCall, refused};
use front_syntax::shapes::symbol_of;
use lang_derived::list_items;
use lang_taken::law_form;
use std::alloc::Global;

/// The most expansions of a file, and the most in a row.
const MOST_EXPANSIONS: u32 = 5000;

const MOST_IN_ROW: u32 = 200;

// The first of so many macros that has the name.
fn macro_named(macros: &ItemList<MacroRow>, count: usize, name: Name) -> Option<usize>
    ensures { result ≡ row.macro_named (take count macros.now) name }
{
    for at in 0..count {
        let Some(row) = macros.get(at) else {
            return None;
        };
        if name.0 == row.name.0 {
            return Some(at);
        }
    }
    None
}

// Whether the symbol names a special form.
fn is_special(names: &Names, symbol: Symbol) -> bool
    ensures { result ≡ is_some (row.special_of (text_of_symbol names.now symbol)) }
{
    match symbol_text(names, symbol) {
        Some(text) => special_named(text).is_some(),
        None => false,
    }
}

// The number of the macro that a symbol in front of a call has the name of.
fn macro_of_symbol(
    names: &Names,
    bound: &Bindings,
    spot: Spot,
    tables: &Tables,
    head: Option<Symbol>,
) -> Option<usize>
    ensures { result ≡ row.macro_of_symbol names.now (at bound.now spot) tables.now head }
{
    let Some(Symbol::Named(name)) = head else {
        return None;
    };
    if is_special(names, Symbol::Named(name)) || bound.function_of(Symbol::Named(name)).is_some() {
        return None;
    }
    macro_named(&tables.macros, tables.before.macros, name)
}

// The number of the macro that a datum, which is no derived form, calls where it stands.
fn macro_called(
    names: &Names,
    bound: &Bindings,
    spot: Spot,
    tables: &Tables,
    datum: &Datum,
) -> Option<usize>
    ensures { result ≡ row.macro_called names.now (at bound.now spot) tables.now datum.now }
{
    let Some(items) = list_items(datum) else {
        return None;
    };
    let Some((head, _arguments)) = items.split_first() else {
        return None;
    };
    macro_of_symbol(names, bound, spot, tables, symbol_of(head))
}

// What the call of that macro expands to, with the next number: `TooManyExpansions` where the file has none left, and
// `ExpansionDepth` where the call stands at the end of a row.
fn expand_call<X: Expanding>(
    alloc: Global,
    names: &Names,
    tables: &mut Tables,
    bound: &Bindings,
    spot: Spot,
    macro_number: usize,
    datum: &Datum,
    expander: &mut X,
) -> Result<Datum, Stop>
    requires begun { Begun tables.old }
    requires good { WellFormed (length names.now) datum.now }
    requires called { row.macro_called names.now (at bound.now spot) tables.old datum.now ≡ Some macro_number }
    ensures gives { IfOk result (λ e. Calls names.now (at bound.now spot) tables.old datum.now tables.new e) }
    ensures stops { IfErr result (NodeEnds names.now (λ later. row.settled_node later (at bound.now spot) tables.old datum.now)) }
    ensures grows { TablesGrow tables.old tables.new }
{
    law_form();
    if tables.expansions >= MOST_EXPANSIONS {
        return Err(refused(datum, Reason::TooManyExpansions));
    }
    if spot.in_row >= MOST_IN_ROW {
        return Err(refused(datum, Reason::ExpansionDepth));
    }
    let number = tables.expansions + 1;
    let call = MacroCall {
        tables,
        macro_number,
        datum,
        number,
    };
    let expansion = expander.expand(alloc, names, &call)?;
    tables.expansions = number;
    Ok(expansion)
}

// What a datum that is no derived form expands to; none where it is no call of a macro.
fn expand_once<X: Expanding>(
    alloc: Global,
    names: &Names,
    tables: &mut Tables,
    bound: &Bindings,
    spot: Spot,
    datum: &Datum,
    expander: &mut X,
) -> Result<Option<Datum>, Stop>
    requires begun { Begun tables.old }
    requires good { WellFormed (length names.now) datum.now }
    ensures gives { IfOk result (λ o. CallGives names.now (at bound.now spot) tables.old datum.now tables.new o) }
    ensures stops { IfErr result (NodeEnds names.now (λ later. row.settled_node later (at bound.now spot) tables.old datum.now)) }
    ensures grows { TablesGrow tables.old tables.new }
{
    match macro_called(names, bound, spot, tables, datum) {
        None => Ok(None),
        Some(macro_number) => {
            let expansion = expand_call(
                alloc,
                names,
                tables,
                bound,
                spot,
                macro_number,
                datum,
                expander,
            )?;
            Ok(Some(expansion))
        }
    }
}

// The last datum that was found, or the one that it began with.
fn last_datum<'a>(found: &'a Option<Datum>, datum: &'a Datum) -> &'a Datum
    ensures { result.now ≡ settled_datum found.now datum.now }
{
    match found {
        Some(last) => last,
        None => datum,
    }
}

/// What a form comes to by its steps and, where they end in a call of a macro, by its expansion: it stands, as the datum that the
/// steps led to or as itself; or it is judged as what it expands to.
#[derive(Drop)]
pub(crate) enum Turn {
    Stands(Option<Datum>),
    Expanded(Datum),
}

// The steps of a form, and then the expansion.
fn take_turn<X: Expanding>(
    alloc: Global,
    names: &mut Names,
    tables: &mut Tables,
    bound: &Bindings,
    spot: Spot,
    datum: &Datum,
    expander: &mut X,
) -> Result<Turn, Stop>
    requires begun { Begun tables.old }
    requires good { WellFormed (length names.old) datum.now }
    ensures gives { IfOk result (TurnGives names.new (at bound.now spot) tables.old datum.now tables.new) }
    ensures stops { IfErr result (FormStops names.new (at bound.now spot) tables.old datum.now) }
    ensures names { Extends names.old names.new }
    ensures grows { TablesGrow tables.old tables.new }
{
    let found = settle(alloc, names, tables, datum)?;
    let last = last_datum(&found, datum);
    match expand_once(alloc, names, tables, bound, spot, last, expander) {
        Ok(None) => Ok(Turn::Stands(found)),
        Ok(Some(expansion)) => {
            drop(found);
            Ok(Turn::Expanded(expansion))
        }
        Err(stop) => {
            drop(found);
            Err(stop)
        }
    }
}

/// Where steps and expansions lead: to that datum, if not to the one that they began with, which stands there.
#[derive(Drop)]
pub(crate) struct Settled {
    pub(crate) found: Option<Datum>,
    pub(crate) spot: Spot,
}

/// Takes the steps of a form and expands calls of macros, as long as the one or the other is to be done.
pub(crate) fn settle_calls<X: Expanding>(
    alloc: Global,
    names: &mut Names,
    tables: &mut Tables,
    bound: &Bindings,
    spot: Spot,
    datum: &Datum,
    expander: &mut X,
) -> Result<Settled, Stop>
    requires begun { Begun tables.old }
    requires good { WellFormed (length names.old) datum.now }
    ensures settled { IfOk result (λ r. IsSettled names.new (at bound.now spot) tables.old datum.now (at bound.now r.spot) tables.new (settled_datum r.found datum.now)) }
    ensures weight { IfOk result (λ r. weight r.spot ≡ weight spot) }
    ensures begun { Begun tables.new }
    ensures stops { IfErr result (FormStops names.new (at bound.now spot) tables.old datum.now) }
    ensures names { Extends names.old names.new }
    ensures grows { TablesGrow tables.old tables.new }
{
    let mut found: Option<Datum> = None;
    let mut here = spot;
    'turns: loop {
        let last = last_datum(&found, datum);
        match take_turn(alloc, names, tables, bound, here, last, expander)? {
            Turn::Stands(None) => return Ok(Settled { found, spot: here }),
            Turn::Stands(Some(step)) => {
                drop(found);
                return Ok(Settled {
                    found: Some(step),
                    spot: here,
                });
            }
            Turn::Expanded(expansion) => {
                found = Some(expansion);
                here.in_row += 1;
            }
        }
    }
}
