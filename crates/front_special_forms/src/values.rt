// The rows of what has no part of its own, of variables, and of forms that evaluate all their parts where they stand.

ghost use Rattle.std.specs.Prelude.{◌≡◌, ◌+◌, ◌<◌, ◌++◌, ◌∷◌, [], Some, None, IfOk, OnOk};
ghost use Rattle.front_profile.specs.RowWords as word;
ghost use Rattle.front_profile.specs.ValueRows as row;
ghost use Rattle.front_profile.specs.Shapes.{symbol_of};
ghost use Rattle.front_drafts.specs.Drafts.{around, Draws};
ghost use Rattle.front_drafts.specs.Views.{view_parts};
ghost use Rattle.front_syntax.specs.Views.{view_clauses};

use crate::calls::with_forms;
use crate::inside::with_inside;
use base::{Datum, Kind, Name, NoMemory, Reason, Symbol};
use front_drafts::draft::{Draft, Note, made_at_once, made_within, offence, one_part};
use front_drafts::here::{FormContext, deeper_at_top, fits_depth};
use front_drafts::plan::{Parts, one_form, push_below, push_form};
use front_profile::{BodyLengths, Elaboration, Leaf, One, ReservedWords, Tables};
use front_syntax::shapes::{Clauses, clauses_in, is_true, name_of, symbol_of};
use lang_meaning::{LiteralRow, OverTwo};

/// A symbol: `t`, a variable around, or a global variable.
pub fn symbol_draft<'a>(here: FormContext, symbol: Symbol) -> Result<Draft<'a>, NoMemory>
    ensures { Draws here.entry
        (row.symbol_node (around here.entry) here.entry.place here.entry.tables.now symbol) result }
{
    if is_true(here.tables.words, symbol) {
        let datum = Datum::new(here.place, Kind::Sym(symbol));
        return Ok(Draft::Literal(LiteralRow::Datum(datum)));
    }
    match here.bound.variable_of(symbol) {
        Some(variable) => Ok(Draft::Unsited(Leaf::Local(variable))),
        None => match symbol {
            Symbol::Named(name) => Ok(made_at_once(here, Leaf::Global(name))),
            Symbol::Fresh { .. } => Ok(offence(here.place, Reason::BadShape)),
        },
    }
}

/// `(quote d)`
pub fn quote_draft<'a>(here: FormContext, items: &'a [Datum]) -> Result<Draft<'a>, NoMemory>
    ensures { Draws here.entry
        (row.quote_row (around here.entry) here.entry.tables.now here.entry.place items.now) result }
{
    let [datum] = items else {
        return Ok(offence(here.place, Reason::BadShape));
    };
    Ok(Draft::Literal(LiteralRow::Datum(datum.copy(here.alloc)?)))
}

fn is_constant(tables: &Tables, name: Name) -> bool
    ensures { result ≡ row.is_constant tables.now name }
{
    for global in tables.globals.as_slice() {
        if global.constant && name.0 == global.name.0 {
            return true;
        }
    }
    false
}

// A global variable is set, unless it is a constant.
fn set_free<'a>(here: FormContext, symbol: Symbol, datum: &'a Datum) -> Result<Draft<'a>, NoMemory>
    ensures { Draws here.entry
        (row.set_free (around here.entry) here.entry.tables.now here.entry.place symbol datum.now) result }
{
    let Symbol::Named(name) = symbol else {
        return Ok(offence(here.place, Reason::BadShape));
    };
    if is_constant(here.tables, name) {
        return Ok(offence(here.place, Reason::ConstantSet));
    }
    let parts = one_form(here.alloc, datum)?;
    let making = Elaboration::OfOne(One::SetGlobal(name));
    Ok(made_within(here, Note::Set(name), 1, parts, making))
}

// A variable is set, or a global variable.
fn set_symbol<'a>(
    here: FormContext,
    symbol: Symbol,
    datum: &'a Datum,
) -> Result<Draft<'a>, NoMemory>
    ensures { Draws here.entry
        (row.set_symbol (around here.entry) here.entry.tables.now here.entry.place symbol datum.now) result }
{
    if is_true(here.tables.words, symbol) {
        return Ok(offence(here.place, Reason::ConstantSet));
    }
    match here.bound.variable_of(symbol) {
        Some(variable) => one_part(here, One::SetVariable(variable), datum),
        None => set_free(here, symbol, datum),
    }
}

/// `(setq v x)`: `nil` is a constant too.
pub fn setq_draft<'a>(here: FormContext, items: &'a [Datum]) -> Result<Draft<'a>, NoMemory>
    ensures { Draws here.entry
        (row.setq_row (around here.entry) here.entry.tables.now here.entry.place items.now) result }
{
    let [target, datum] = items else {
        return Ok(offence(here.place, Reason::BadShape));
    };
    match &target.kind {
        Kind::Sym(symbol) => set_symbol(here, *symbol, datum),
        Kind::Nil => Ok(offence(here.place, Reason::ConstantSet)),
        _ => Ok(offence(here.place, Reason::BadShape)),
    }
}

/// `(progn f*)`, whose forms stand at top level where it does.
pub fn progn_draft<'a>(here: FormContext, items: &'a [Datum]) -> Result<Draft<'a>, NoMemory>
    ensures { Draws here.entry
        (row.progn_row (around here.entry) here.entry.tables.now here.entry.place items.now) result }
{
    if !fits_depth(here.spot, 1) {
        return Ok(offence(here.place, Reason::DepthLimit));
    }
    let inside = deeper_at_top(here.spot);
    let parts = Parts::new(here.alloc);
    with_inside(here, inside, parts, items, Elaboration::InSequence)
}

// The length of a body, none where there is none.
fn length_if(items: &[Datum]) -> Option<usize>
    ensures { result ≡ row.length_if items.now }
{
    if items.is_empty() {
        None
    } else {
        Some(items.len())
    }
}

fn clause_lengths(here: FormContext, clauses: &Clauses) -> Result<BodyLengths, NoMemory>
    ensures { IfOk result (λ lengths. lengths ≡ row.clause_lengths (view_clauses clauses.now)) }
{
    let mut lengths = BodyLengths::new(here.alloc);
    for clause in clauses.as_slice() {
        lengths.push(length_if(clause.body))?;
    }
    Ok(lengths)
}

fn clause_parts<'a>(here: FormContext, clauses: &Clauses<'a>) -> Result<Parts<'a>, NoMemory>
    ensures { IfOk result (λ parts. view_parts parts ≡ row.clause_parts (view_clauses clauses.now)) }
{
    let mut parts = Parts::new(here.alloc);
    for clause in clauses.as_slice() {
        push_form(&mut parts, clause.test)?;
        push_below(&mut parts, clause.body)?;
    }
    Ok(parts)
}

// How many core forms of its own stand inside one another: a clause with a body is one deeper by it.
fn own_depth(clauses: &Clauses) -> u32
    ensures { result ≡ row.own_depth (view_clauses clauses.now) }
{
    for clause in clauses.as_slice() {
        if length_if(clause.body).is_some() {
            return 2;
        }
    }
    1
}

/// `(cond (x f*)*)`
pub fn cond_draft<'a>(here: FormContext, items: &'a [Datum]) -> Result<Draft<'a>, NoMemory>
    ensures { Draws here.entry
        (row.cond_row (around here.entry) here.entry.tables.now here.entry.place items.now) result }
{
    let Some(clauses) = clauses_in(here.alloc, items)? else {
        return Ok(offence(here.place, Reason::BadShape));
    };
    let lengths = clause_lengths(here, &clauses)?;
    let parts = clause_parts(here, &clauses)?;
    let own = own_depth(&clauses);
    Ok(made_within(
        here,
        Note::Nothing,
        own,
        parts,
        Elaboration::OfClauses(lengths),
    ))
}

/// Two forms: `(throw x x)`, `(%apply x x)`.
pub fn two_draft<'a>(
    here: FormContext,
    kind: OverTwo,
    items: &'a [Datum],
) -> Result<Draft<'a>, NoMemory>
    ensures { Draws here.entry
        (row.two_row kind (around here.entry) here.entry.tables.now here.entry.place items.now) result }
{
    let [_, _] = items else {
        return Ok(offence(here.place, Reason::BadShape));
    };
    let parts = Parts::new(here.alloc);
    with_forms(here, 1, parts, Elaboration::OfTwo(kind), items)
}

/// A form and a body: `(while x f*)`, `(catch x f*)`, `(unwind-protect x f*)`, `(with-handler x f*)`.
pub fn body_draft<'a>(
    here: FormContext,
    kind: OverTwo,
    items: &'a [Datum],
) -> Result<Draft<'a>, NoMemory>
    ensures { Draws here.entry
        (row.body_row kind (around here.entry) here.entry.tables.now here.entry.place items.now) result }
{
    let [first, body @ ..] = items else {
        return Ok(offence(here.place, Reason::BadShape));
    };
    let mut parts = one_form(here.alloc, first)?;
    push_below(&mut parts, body)?;
    Ok(made_within(here, Note::Nothing, 2, parts, Elaboration::OfBody(kind)))
}

// The name of a dynamic variable: a symbol with a name, and not `t`.
fn dynamic_name(words: ReservedWords, datum: &Datum) -> Option<Name>
    ensures { result ≡ row.dynamic_name words (symbol_of datum.now) }
{
    let symbol = symbol_of(datum)?;
    if is_true(words, symbol) {
        None
    } else {
        name_of(symbol)
    }
}

/// `(dynamic v)`
pub fn dynamic_draft<'a>(here: FormContext, items: &'a [Datum]) -> Result<Draft<'a>, NoMemory>
    ensures { Draws here.entry
        (row.dynamic_row (around here.entry) here.entry.tables.now here.entry.place items.now) result }
{
    let [datum] = items else {
        return Ok(offence(here.place, Reason::BadShape));
    };
    match dynamic_name(here.tables.words, datum) {
        Some(name) => Ok(made_at_once(here, Leaf::Dynamic(name))),
        None => Ok(offence(here.place, Reason::BadShape)),
    }
}

/// `(set-dynamic x v)`
pub fn set_dynamic_draft<'a>(here: FormContext, items: &'a [Datum]) -> Result<Draft<'a>, NoMemory>
    ensures { Draws here.entry
        (row.set_dynamic_row (around here.entry) here.entry.tables.now here.entry.place items.now) result }
{
    let [datum, target] = items else {
        return Ok(offence(here.place, Reason::BadShape));
    };
    match dynamic_name(here.tables.words, target) {
        Some(name) => one_part(here, One::SetDynamic(name), datum),
        None => Ok(offence(here.place, Reason::BadShape)),
    }
}

/// `(function g)`: the value of a local function, or the function of a name.
pub fn function_draft<'a>(here: FormContext, items: &'a [Datum]) -> Result<Draft<'a>, NoMemory>
    ensures { Draws here.entry
        (row.function_row (around here.entry) here.entry.tables.now here.entry.place items.now) result }
{
    let [datum] = items else {
        return Ok(offence(here.place, Reason::BadShape));
    };
    let Some(symbol) = symbol_of(datum) else {
        return Ok(offence(here.place, Reason::BadShape));
    };
    match here.bound.function_of(symbol) {
        Some(variable) => Ok(Draft::Unsited(Leaf::Local(variable))),
        None => match symbol {
            Symbol::Named(name) => Ok(Draft::Literal(LiteralRow::Function(name))),
            Symbol::Fresh { .. } => Ok(offence(here.place, Reason::BadShape)),
        },
    }
}

/// `(call-next-method)` and `(next-method-p)`, in a method that may have a next one.
pub fn method_draft<'a>(
    here: FormContext,
    leaf: Leaf,
    items: &[Datum],
) -> Result<Draft<'a>, NoMemory>
    ensures { Draws here.entry
        (row.method_row leaf (around here.entry) here.entry.tables.now here.entry.place items.now) result }
{
    if !items.is_empty() || !here.spot.in_method {
        return Ok(offence(here.place, Reason::BadShape));
    }
    Ok(made_at_once(here, leaf))
}

/// `(class c)`: the class of a name, that is defined earlier.
pub fn class_draft<'a>(here: FormContext, items: &'a [Datum]) -> Result<Draft<'a>, NoMemory>
    ensures { Draws here.entry
        (row.class_row (around here.entry) here.entry.tables.now here.entry.place items.now) result }
{
    let [datum] = items else {
        return Ok(offence(here.place, Reason::BadShape));
    };
    let Some(symbol) = symbol_of(datum) else {
        return Ok(offence(here.place, Reason::BadShape));
    };
    let Symbol::Named(name) = symbol else {
        return Ok(offence(here.place, Reason::BadShape));
    };
    match here.tables.classes.find(name) {
        Some(class) => Ok(Draft::Literal(LiteralRow::Class(class))),
        None => Ok(offence(datum.place, Reason::UnknownClass)),
    }
}
