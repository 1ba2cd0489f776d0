// What each datum is where it stands: the text of a list's head decides on the row.

ghost use Rattle.std.specs.Prelude.{◌≡◌, ◌||◌, length, Some, None, IfOk, MatchOption};
ghost use Rattle.std.specs.List.{list_any};
ghost use Rattle.base.specs.model.DataView.{tail_of};
ghost use Rattle.base.specs.DataNames.{symbol_text};
ghost use Rattle.base.specs.Data.{place_of};
ghost use Rattle.base.specs.WellFormedData.{WellFormed};
ghost use Rattle.base.specs.Names.{Extends};
ghost use Rattle.lang_derived.specs.Asked.{list_items};
ghost use Rattle.lang_meaning.specs.declared.program.LiteralRow.TheVariants as literal;
ghost use Rattle.front_profile.specs.Names.{function_of};
ghost use Rattle.front_profile.specs.RowWords as word;
ghost use Rattle.front_profile.specs.Rows as row;
ghost use Rattle.front_profile.specs.Shapes.{symbol_of};
ghost use Rattle.front_drafts.specs.Drafts.{around, drawn, Draws};
ghost use Rattle.front_drafts.specs.Views.{at, shown};
ghost use Rattle.front_profile.specs.Marks.{TablesGrow};

use base::{Datum, Kind, Name, Names, NoMemory, Reason, Symbol, symbol_text, text_of};
use front_class_definitions::classes::defclass_draft;
use front_definitions::defining::{defdynamic_draft, defun_draft, global_draft};
use front_definitions::generics::defgeneric_draft;
use front_definitions::methods::defmethod_draft;
use front_drafts::draft::{Draft, offence};
use front_drafts::here::{FormContext, Here};
use front_drafts::plan::Plan;
use front_drafts::take::take;
use front_profile::{DefinedAs, Leaf, Special, Tables, special_named};
use front_special_forms::bindings::{
    dynamic_let_draft, lambda_draft, let_draft, with_functions_draft,
};
use front_special_forms::calls::{local_call_draft, named_call_draft, value_call_draft};
use front_special_forms::exits::{block_draft, go_draft, return_from_draft, tagbody_draft};
use front_special_forms::values::{
    body_draft, class_draft, cond_draft, dynamic_draft, function_draft, method_draft, progn_draft,
    quote_draft, set_dynamic_draft, setq_draft, symbol_draft, two_draft,
};
use front_syntax::setters::add_setters;
use front_syntax::shapes::symbol_of;
use front_syntax::words::{is_kept, is_left_out, is_reserved_name};
use lang_derived::list_items;
use lang_meaning::{LiteralRow, OverTwo};

// Whether no definition of a file may have the name of the first of these.
fn first_reserved(names: &Names, items: &[Datum]) -> bool
    ensures { result ≡ row.first_reserved names.now items.now }
{
    let Some(first) = items.first() else {
        return false;
    };
    match text_of(names, first) {
        Some(text) => is_reserved_name(text),
        None => false,
    }
}

// Whether no local function may have the name in front of a list.
fn first_kept(names: &Names, datum: &Datum) -> bool
    ensures { result ≡ row.first_kept names.now (list_items datum.now) }
{
    let Some([first, _others @ ..]) = list_items(datum) else {
        return false;
    };
    match text_of(names, first) {
        Some(text) => is_kept(text),
        None => false,
    }
}

// Whether one of a list of local functions has such a name.
fn some_kept(names: &Names, items: &[Datum]) -> bool
    ensures { result ≡ list_any (λ d. row.first_kept names.now (list_items d)) items.now }
{
    for item in items {
        if first_kept(names, item) {
            return true;
        }
    }
    false
}

fn functions_kept(names: &Names, items: &[Datum]) -> bool
    ensures { result ≡ row.functions_kept names.now items.now }
{
    let Some(first) = items.first() else {
        return false;
    };
    match list_items(first) {
        Some(functions) => some_kept(names, functions),
        None => false,
    }
}

// The row of a special or defining form, by what stands behind its name.
fn special_draft<'a>(
    here: FormContext,
    names: &Names,
    special: Special,
    items: &'a [Datum],
) -> Result<Draft<'a>, NoMemory>
    ensures { Draws here.entry
        (row.special_row names.now special (around here.entry) here.entry.tables.now here.entry.place items.now) result }
{
    match special {
        Special::Quote => quote_draft(here, items),
        Special::Setq => setq_draft(here, items),
        Special::Cond => cond_draft(here, items),
        Special::Progn => progn_draft(here, items),
        Special::Let => let_draft(here, items),
        Special::Lambda => lambda_draft(here, items),
        Special::Apply => two_draft(here, OverTwo::Apply, items),
        Special::While => body_draft(here, OverTwo::While, items),
        Special::Block => block_draft(here, items),
        Special::ReturnFrom => return_from_draft(here, items),
        Special::Tagbody => tagbody_draft(here, items),
        Special::Go => go_draft(here, items),
        Special::Catch => body_draft(here, OverTwo::Catch, items),
        Special::Throw => two_draft(here, OverTwo::Throw, items),
        Special::UnwindProtect => body_draft(here, OverTwo::Unwind, items),
        Special::DynamicLet => dynamic_let_draft(here, items),
        Special::Dynamic => dynamic_draft(here, items),
        Special::SetDynamic => set_dynamic_draft(here, items),
        Special::WithHandler => body_draft(here, OverTwo::WithHandler, items),
        Special::Function => function_draft(here, items),
        Special::Class => class_draft(here, items),
        Special::CallNextMethod => method_draft(here, Leaf::NextMethod, items),
        Special::NextMethodP => method_draft(here, Leaf::HasNext, items),
        Special::WithFunctions => {
            with_functions_draft(here, functions_kept(names, items), items)
        }
        Special::Defglobal => global_draft(here, false, items),
        Special::Defconstant => global_draft(here, true, items),
        Special::Defdynamic => defdynamic_draft(here, items),
        Special::Defun => defun_draft(
            here,
            DefinedAs::Function,
            first_reserved(names, items),
            items,
        ),
        Special::Defmacro => defun_draft(
            here,
            DefinedAs::Macro,
            first_reserved(names, items),
            items,
        ),
        Special::Defclass => defclass_draft(here, names, items),
        Special::Defgeneric => defgeneric_draft(here, names, items),
        Special::Defmethod => defmethod_draft(here, names, items),
    }
}

// A call by a name that is no local function's.
fn call_named<'a>(
    here: FormContext,
    name: Name,
    text: &[u8],
    items: &'a [Datum],
) -> Result<Draft<'a>, NoMemory>
    ensures { Draws here.entry
        (row.call_named name text.now (around here.entry) here.entry.tables.now here.entry.place items.now) result }
{
    if is_left_out(text) {
        return Ok(offence(here.place, Reason::LeftOut));
    }
    named_call_draft(here, name, text, items)
}

// A call by a symbol that is no local function's.
fn call_symbol<'a>(
    here: FormContext,
    names: &Names,
    symbol: Symbol,
    items: &'a [Datum],
) -> Result<Draft<'a>, NoMemory>
    ensures { Draws here.entry
        (row.call_symbol symbol (symbol_text names.now symbol) (around here.entry) here.entry.tables.now here.entry.place items.now) result }
{
    match (symbol, symbol_text(names, symbol)) {
        (Symbol::Named(name), Some(text)) => call_named(here, name, text, items),
        _ => Ok(offence(here.place, Reason::BadShape)),
    }
}

// The special or defining form that a symbol names.
fn special_of(names: &Names, symbol: Symbol) -> Option<Special>
    ensures { result ≡ row.special_of (symbol_text names.now symbol) }
{
    special_named(symbol_text(names, symbol)?)
}

// A list with that symbol in front.
fn headed_draft<'a>(
    here: FormContext,
    names: &Names,
    symbol: Symbol,
    items: &'a [Datum],
    tail: &Option<Box<Datum>>,
) -> Result<Draft<'a>, NoMemory>
    ensures { Draws here.entry
        (row.headed names.now symbol (around here.entry) here.entry.tables.now here.entry.place items.now (tail_of tail.now)) result }
{
    if let Some(special) = special_of(names, symbol) {
        return match tail {
            None => special_draft(here, names, special, items),
            Some(_) => Ok(offence(here.place, Reason::BadShape)),
        };
    }
    if tail.is_some() {
        return Ok(offence(here.place, Reason::NotAForm));
    }
    match here.bound.function_of(symbol) {
        Some(variable) => local_call_draft(here, variable, items),
        None => call_symbol(here, names, symbol, items),
    }
}

// Whether a datum is a lambda form: a list with `lambda` in front.
#[tactic(auto, using(crate::proofs::Lists::shown_items))]
fn is_lambda(names: &Names, datum: &Datum) -> bool
    ensures { result ≡ row.is_lambda names.now datum.now }
{
    match &datum.kind {
        Kind::List { items, .. } => is_lambda_items(names, items.as_slice()),
        Kind::Int(_) => false,
        Kind::Char(_) => false,
        Kind::Sym(_) => false,
        Kind::Str(_) => false,
        Kind::Vector(_) => false,
        Kind::Nil => false,
    }
}

// Whether that is the special form `lambda`.
fn is_lambda_name(special: Option<Special>) -> bool
    ensures { result ≡ row.is_lambda_name special }
{
    matches!(special, Some(Special::Lambda))
}

fn is_lambda_items(names: &Names, items: &[Datum]) -> bool
    ensures { result ≡ row.is_lambda_items names.now items.now }
{
    let Some(first) = items.first() else {
        return false;
    };
    match text_of(names, first) {
        Some(text) => is_lambda_name(special_named(text)),
        None => false,
    }
}

// A list whose head is no symbol.
fn form_headed_draft<'a>(
    here: FormContext,
    names: &Names,
    head: &'a Datum,
    items: &'a [Datum],
    tail: &Option<Box<Datum>>,
) -> Result<Draft<'a>, NoMemory>
    ensures { Draws here.entry
        (row.headed_by_form names.now head.now (around here.entry) here.entry.tables.now here.entry.place items.now (tail_of tail.now)) result }
{
    if !is_lambda(names, head) || tail.is_some() {
        return Ok(offence(here.place, Reason::NotAForm));
    }
    value_call_draft(here, head, items)
}

// A list of these items, with that tail.
fn list_draft<'a>(
    here: FormContext,
    names: &Names,
    items: &'a [Datum],
    tail: &Option<Box<Datum>>,
) -> Result<Draft<'a>, NoMemory>
    ensures { Draws here.entry
        (row.list_node names.now (around here.entry) here.entry.tables.now here.entry.place items.now (tail_of tail.now)) result }
{
    let [head, others @ ..] = items else {
        return Ok(offence(here.place, Reason::NotAForm));
    };
    match symbol_of(head) {
        Some(symbol) => headed_draft(here, names, symbol, others, tail),
        None => form_headed_draft(here, names, head, others, tail),
    }
}

// What a datum at that place that is no derived form is there.
#[tactic(auto, using(crate::proofs::Lists::shown_items))]
fn datum_draft<'a>(
    here: FormContext,
    names: &Names,
    datum: &'a Datum,
) -> Result<Draft<'a>, NoMemory>
    requires { here.place ≡ place_of datum.now }
    ensures { Draws here.entry (row.plain_node names.now (around here.entry) here.entry.tables.now datum.now) result }
{
    match &datum.kind {
        Kind::List { items, tail } => list_draft(here, names, items.as_slice(), tail),
        Kind::Sym(symbol) => symbol_draft(here, *symbol),
        Kind::Int(_) => self_draft(here, datum),
        Kind::Char(_) => self_draft(here, datum),
        Kind::Str(_) => self_draft(here, datum),
        Kind::Vector(_) => self_draft(here, datum),
        Kind::Nil => self_draft(here, datum),
    }
}

// The same of a form that stands there, with these tables.
fn plain_draft<'a>(
    here: Here,
    tables: &Tables,
    names: &Names,
    datum: &'a Datum,
) -> Result<Draft<'a>, NoMemory>
    requires { here.place ≡ place_of datum.now }
    ensures { IfOk result (λ draft. drawn (at here.entry.bound.now here.entry.spot) here.entry.place tables.now draft
        ≡ row.plain_node names.now (at here.entry.bound.now here.entry.spot) tables.now datum.now) }
{
    let setting = FormContext {
        alloc: here.alloc,
        bound: here.bound,
        spot: here.spot,
        place: here.place,
        tables,
    };
    datum_draft(setting, names, datum)
}

/// What a datum at that place that is no derived form is there. The names `(setf s)` that it asks for are added to the
/// names.
pub fn plain_plan<'a>(
    here: Here,
    tables: &mut Tables,
    names: &mut Names,
    datum: &'a Datum,
) -> Result<Plan<'a>, NoMemory>
    requires place { here.place ≡ place_of datum.now }
    requires good { WellFormed (length names.old) datum.now }
    ensures plan { IfOk result (λ plan. shown here.entry.bound.now tables.new plan
        ≡ row.plain_node names.new (at here.entry.bound.now here.entry.spot) tables.old datum.now) }
    ensures names { Extends names.old names.new }
    ensures grows { TablesGrow tables.old tables.new }
{
    add_setters(here.alloc, names, datum)?;
    let draft = plain_draft(here, tables, names, datum)?;
    take(here, tables, draft)
}

// A datum that evaluates to itself.
fn self_draft<'a>(here: FormContext, datum: &Datum) -> Result<Draft<'a>, NoMemory>
    ensures { Draws here.entry
        (word.literal_node (around here.entry) here.entry.place here.entry.tables.now (literal.Datum datum.now)) result }
{
    Ok(Draft::Literal(LiteralRow::Datum(datum.copy(here.alloc)?)))
}
