// Methods as they are written: a qualifier, parameters with their classes, a body.

ghost use Rattle.std.specs.Prelude.{◌≡◌, ◌++◌, ◌∷◌, [], Some, None, IfOk};
ghost use Rattle.std.specs.List.{list_any};
ghost use Rattle.lang_derived.specs.Asked.{list_items};
ghost use Rattle.front_profile.specs.MethodShapes as shape;
ghost use Rattle.front_profile.specs.Shapes.{symbol_of, parameter_in};
ghost use Rattle.front_syntax.specs.Definitions.{view_asked, view_all_asked, maybe_asked, maybe_taken, view_specialised, maybe_specialised, maybe_method};

use crate::shapes::{all_differ, all_symbols, behind_rest, is_rest_word, parameter_in, symbol_of};
use base::{Datum, FreshList, ItemList, Name, Names, NoMemory, Place, Symbol};
use front_profile::{Parameters, ReservedWords};
use lang_classes::Classes;
use lang_derived::{is_word, list_items};
use lang_meaning::{ClassId, ClassIds, Qualifier};
use std::alloc::Global;

// The class of all objects.
const OBJECT: ClassId = 0;

/// The class of a parameter: `<object>` where none is written, else that of a name, which stands at a
/// place.
#[derive(Clone, Copy)]
pub enum Asked {
    AnyObject,
    OfClass(Name, Place),
}

pub type AskedList = ItemList<Asked>;

/// The parameters of a method, with a class for each required one.
#[derive(Drop)]
pub struct Specialised {
    pub parameters: Parameters,
    pub classes: AskedList,
}

/// A method behind its name; a qualifier is none where it is wrong.
#[derive(Clone, Copy)]
pub struct WrittenMethod<'a> {
    pub qualifier: Option<Qualifier>,
    pub list: &'a Datum,
    pub body: &'a [Datum],
}

// A parameter: a variable and its class.
#[derive(Clone, Copy)]
pub(crate) struct Taken {
    pub(crate) variable: Symbol,
    pub(crate) class: Asked,
}

// The class that a datum asks for.
fn asked_by(datum: &Datum) -> Option<Asked>
    ensures { maybe_asked result ≡ shape.asked_by datum.now (symbol_of datum.now) }
{
    match symbol_of(datum)? {
        Symbol::Named(name) => Some(Asked::OfClass(name, datum.place)),
        Symbol::Fresh { .. } => None,
    }
}

// A parameter that is a list of a variable and a class.
fn taken_in(words: ReservedWords, datum: &Datum) -> Option<Taken>
    ensures { maybe_taken result ≡ shape.taken_in words (list_items datum.now) }
{
    let [variable, class] = list_items(datum)? else {
        return None;
    };
    let variable = parameter_in(words, variable)?;
    let class = asked_by(class)?;
    Some(Taken { variable, class })
}

// A parameter that is a variable.
fn taken_alone(words: ReservedWords, datum: &Datum) -> Option<Taken>
    ensures { maybe_taken result ≡ shape.taken (parameter_in words (symbol_of datum.now)) (Some shape.any_object) }
{
    let variable = parameter_in(words, datum)?;
    Some(Taken {
        variable,
        class: Asked::AnyObject,
    })
}

// The required parameter that a datum is.
fn taken_by(words: ReservedWords, datum: &Datum) -> Option<Taken>
    ensures { maybe_taken result ≡ shape.taken_by words datum.now (symbol_of datum.now) }
{
    match symbol_of(datum) {
        Some(_) => taken_alone(words, datum),
        None => taken_in(words, datum),
    }
}

// The parameters in the items of a list.
fn specialised_of(
    alloc: Global,
    words: ReservedWords,
    items: &[Datum],
) -> Result<Option<Specialised>, NoMemory>
    ensures { IfOk result (λ found. maybe_specialised found ≡ shape.specialised_of words items.now) }
{
    let mut required = FreshList::new(alloc);
    let mut classes = AskedList::new(alloc);
    for at in 0..items.len() {
        let item = &items[at];
        if is_rest_word(words, item) {
            let Some(rest) = behind_rest(words, &items[at + 1..]) else {
                return Ok(None);
            };
            return Ok(Some(with_classes(required, Some(rest), classes)));
        }
        let Some(taken) = taken_by(words, item) else {
            return Ok(None);
        };
        required.push(taken.variable)?;
        classes.push(taken.class)?;
    }
    Ok(Some(with_classes(required, None, classes)))
}

fn with_classes(required: FreshList, rest: Option<Symbol>, classes: AskedList) -> Specialised
    ensures { view_specialised result
        ≡ record { parameters = record { required = required; rest = rest }; classes = view_all_asked classes } }
{
    Specialised {
        parameters: Parameters { required, rest },
        classes,
    }
}

/// The parameters of a method, none where the list is not allowed: no name stands twice.
pub fn specialised_in(
    alloc: Global,
    words: ReservedWords,
    datum: &Datum,
) -> Result<Option<Specialised>, NoMemory>
    ensures { IfOk result (λ found. maybe_specialised found ≡ shape.specialised_in words datum.now) }
{
    let Some(items) = list_items(datum) else {
        return Ok(None);
    };
    let Some(found) = specialised_of(alloc, words, items)? else {
        return Ok(None);
    };
    let symbols = all_symbols(alloc, &found.parameters)?;
    if all_differ(symbols.as_slice()) {
        Ok(Some(found))
    } else {
        Ok(None)
    }
}

fn is_fresh(datum: &Datum) -> bool
    ensures { result ≡ shape.is_fresh (symbol_of datum.now) }
{
    match symbol_of(datum) {
        Some(Symbol::Fresh { .. }) => true,
        Some(Symbol::Named(_)) => false,
        None => false,
    }
}

fn has_fresh_class(datum: &Datum) -> bool
    ensures { result ≡ shape.has_fresh_class (list_items datum.now) }
{
    let Some([_variable, class]) = list_items(datum) else {
        return false;
    };
    is_fresh(class)
}

fn one_has_fresh_class(items: &[Datum]) -> bool
    ensures { result ≡ list_any (λ d. shape.has_fresh_class (list_items d)) items.now }
{
    for item in items {
        if has_fresh_class(item) {
            return true;
        }
    }
    false
}

/// Whether a new symbol stands for the class of a parameter.
pub fn some_fresh_class(list: &Datum) -> bool
    ensures { result ≡ shape.some_fresh_class (list_items list.now) }
{
    match list_items(list) {
        Some(items) => one_has_fresh_class(items),
        None => false,
    }
}

fn class_asked(classes: &Classes, asked: Asked) -> Option<ClassId>
    ensures { result ≡ shape.class_asked classes.now.rows (view_asked asked) }
{
    match asked {
        Asked::AnyObject => Some(OBJECT),
        Asked::OfClass(name, _) => classes.find(name),
    }
}

/// The classes, where all are known.
pub fn classes_asked(
    alloc: Global,
    classes: &Classes,
    asked: &AskedList,
) -> Result<Option<ClassIds>, NoMemory>
    ensures { IfOk result (λ found. found ≡ shape.classes_asked classes.now.rows (view_all_asked asked.now)) }
{
    let mut found = ClassIds::new(alloc);
    for one in asked.as_slice() {
        let Some(class) = class_asked(classes, *one) else {
            return Ok(None);
        };
        found.push(class)?;
    }
    Ok(Some(found))
}

// The place of the name of a class that is not known.
fn unknown(classes: &Classes, asked: Asked) -> Option<Place>
    ensures { result ≡ shape.first_unknown classes.now.rows (view_asked asked ∷ []) }
{
    match asked {
        Asked::AnyObject => None,
        Asked::OfClass(name, place) => match classes.find(name) {
            Some(_) => None,
            None => Some(place),
        },
    }
}

/// The place of the first name of a class that is not known.
pub fn first_unknown(classes: &Classes, asked: &AskedList) -> Option<Place>
    ensures { result ≡ shape.first_unknown classes.now.rows (view_all_asked asked.now) }
{
    for one in asked.as_slice() {
        if let Some(place) = unknown(classes, *one) {
            return Some(place);
        }
    }
    None
}

fn qualifier_of(names: &Names, datum: &Datum) -> Option<Qualifier>
    ensures { result ≡ shape.qualifier_of names.now datum.now }
{
    if is_word(names, b":before", datum) {
        Some(Qualifier::Before)
    } else if is_word(names, b":after", datum) {
        Some(Qualifier::After)
    } else if is_word(names, b":around", datum) {
        Some(Qualifier::Around)
    } else {
        None
    }
}

/// The method that stands behind a name.
pub fn method_in<'a>(names: &Names, items: &'a [Datum]) -> Option<WrittenMethod<'a>>
    ensures { maybe_method result ≡ shape.method_in names.now items.now }
{
    let [first, others @ ..] = items else {
        return None;
    };
    let [list, body @ ..] = others else {
        return Some(primary(first, others));
    };
    match symbol_of(first) {
        None => Some(primary(first, others)),
        Some(_) => Some(WrittenMethod {
            qualifier: qualifier_of(names, first),
            list,
            body,
        }),
    }
}

// A method without a qualifier.
fn primary<'a>(list: &'a Datum, body: &'a [Datum]) -> WrittenMethod<'a>
    ensures { maybe_method (Some result)
        ≡ Some (record { qualifier = Some Qualifier.Primary; list = list.now; body = body.now }) }
{
    WrittenMethod {
        qualifier: Some(Qualifier::Primary),
        list,
        body,
    }
}

/// Whether a next method may be there.
pub fn may_have_next(qualifier: Qualifier) -> bool
    ensures { result ≡ shape.may_have_next qualifier }
{
    match qualifier {
        Qualifier::Primary => true,
        Qualifier::Around => true,
        Qualifier::Before => false,
        Qualifier::After => false,
    }
}
