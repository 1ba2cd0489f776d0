// What a form comes to before its parts are judged: an offence, or the work that its parts are.

ghost use Rattle.std.specs.Prelude.{◌≡◌, ◌++◌, ◌∷◌, [], IfOk, OnOk};
ghost use Rattle.front_drafts.specs.Views.{view_parts, view_inner};
ghost use Rattle.front_profile.specs.Nodes.{form};
ghost use Rattle.front_profile.specs.RowWords.{each_form, each_below, each_inner, each_parameter};
ghost use Rattle.front_profile.specs.Shapes.{all_symbols};

use base::{Datum, FreshList, ItemList, Name, NoMemory, Place, Reason, Symbol};
use front_profile::{Accessor, BoundList, Made, Parameters, Spot};
use std::alloc::Global;

/// A function of a definition that defines more than one: of an initform; of a slot's option, under the
/// name of its generic function, with the place and the name of the slot; of a method, under the name of
/// its generic function, whose body may have a next method or not.
#[derive(Drop)]
pub enum Written<'a> {
    Initform(&'a Datum),
    Accessor(Name, Accessor, Place, Name),
    Method(Name, bool, Parameters, &'a [Datum]),
}

/// A part that stands where the whole stands: a form, a form of a body there, a variable with its
/// value, or a parameter; an offence behind the parts in front of it; or a function of a definition,
/// which stands alone.
#[derive(Drop)]
pub enum Part<'a> {
    Form(&'a Datum),
    Below(&'a Datum),
    Bind(Symbol, &'a Datum),
    Parameter(Symbol),
    Wrong(Place, Reason),
    Function(Written<'a>),
}

/// Such parts.
pub type Parts<'a> = ItemList<Part<'a>>;

/// Forms that stand inside.
pub type Inner<'a> = ItemList<&'a Datum>;

/// The parts of a core form: those outside come first, and then the forms inside, where what the form
/// binds is bound, these things and the variables among the parts.
#[derive(Drop)]
pub struct Work<'a> {
    pub outside: Spot,
    pub inside: Spot,
    pub binds: BoundList,
    pub parts: Parts<'a>,
    pub inner: Inner<'a>,
    pub made: Made,
}

/// An offence of the form itself, or its parts.
#[derive(Drop)]
pub enum Plan<'a> {
    Offends(Place, Reason),
    Whole(Work<'a>),
}

/// Appends a form that stands where the whole stands.
pub fn push_form<'a>(parts: &mut Parts<'a>, datum: &'a Datum) -> Result<(), NoMemory>
    ensures { OnOk result (view_parts parts.new ≡ view_parts parts.old ++ form datum.now ∷ []) }
{
    parts.push(Part::Form(datum))
}

/// One form that stands where the whole stands.
pub fn one_form<'a>(alloc: Global, datum: &'a Datum) -> Result<Parts<'a>, NoMemory>
    ensures { IfOk result (λ parts. view_parts parts ≡ form datum.now ∷ []) }
{
    let mut parts = Parts::new(alloc);
    parts.push(Part::Form(datum))?;
    Ok(parts)
}

/// Appends forms that stand where the whole stands.
pub fn push_forms<'a>(parts: &mut Parts<'a>, items: &'a [Datum]) -> Result<(), NoMemory>
    ensures { OnOk result (view_parts parts.new ≡ view_parts parts.old ++ each_form items.now) }
{
    for item in items {
        parts.push(Part::Form(item))?;
    }
    Ok(())
}

/// Appends forms of a body there.
pub fn push_below<'a>(parts: &mut Parts<'a>, items: &'a [Datum]) -> Result<(), NoMemory>
    ensures { OnOk result (view_parts parts.new ≡ view_parts parts.old ++ each_below items.now) }
{
    for item in items {
        parts.push(Part::Below(item))?;
    }
    Ok(())
}

/// The forms that stand inside.
pub fn inner_forms<'a>(alloc: Global, items: &'a [Datum]) -> Result<Inner<'a>, NoMemory>
    ensures { IfOk result (λ inner. view_inner inner ≡ each_inner items.now) }
{
    let mut inner = Inner::new(alloc);
    for item in items {
        inner.push(item)?;
    }
    Ok(inner)
}

// Appends parameters.
fn push_parameters(parts: &mut Parts, symbols: &FreshList) -> Result<(), NoMemory>
    ensures { OnOk result (view_parts parts.new ≡ view_parts parts.old ++ each_parameter symbols.now) }
{
    for symbol in symbols.as_slice() {
        parts.push(Part::Parameter(*symbol))?;
    }
    Ok(())
}

/// The variables of a lambda list, as parts.
pub fn parameter_parts<'a>(alloc: Global, parameters: &Parameters) -> Result<Parts<'a>, NoMemory>
    ensures { IfOk result (λ parts. view_parts parts ≡ each_parameter (all_symbols parameters.now)) }
{
    let mut parts = Parts::new(alloc);
    push_parameters(&mut parts, &parameters.required)?;
    if let Some(symbol) = parameters.rest {
        parts.push(Part::Parameter(symbol))?;
    }
    Ok(parts)
}
