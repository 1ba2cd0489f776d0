// What the row of a form makes of it, before the tables take anything of it: an offence, or a core form with its parts.

ghost use Rattle.std.specs.Prelude.{◌≡◌, ◌+◌, ◌<◌, ◌++◌, [], IfOk};
ghost use Rattle.front_drafts.specs.Drafts.{around, shows, noting, Draws};
ghost use Rattle.front_drafts.specs.Views.{at, view_parts, view_inner};
ghost use Rattle.front_profile.specs.RowWords as word;
ghost use Rattle.front_profile.specs.ValueRows as row;

use crate::here::{FormContext, deeper, fits_depth};
use crate::plan::{Inner, Parts, one_form};
use base::{Datum, Name, NoMemory, Place, Reason};
use front_profile::{
    BoundList, DefinedAs, Elaboration, Leaf, MethodHeads, NewClass, One, Spot, Taker,
};
use lang_meaning::LiteralRow;

/// What the tables note of a form before its parts are judged.
#[derive(Clone, Copy)]
pub enum Note {
    Nothing,
    /// A global variable that the form sets.
    Set(Name),
    /// The exit that the form makes, which takes its number.
    Exit,
}

/// A core form at its site: the parts outside come first, and then the forms inside, where these things are bound.
#[derive(Drop)]
pub struct Sketch<'a> {
    pub note: Note,
    pub outside: Spot,
    pub inside: Spot,
    pub binds: BoundList,
    pub parts: Parts<'a>,
    pub inner: Inner<'a>,
    pub making: Elaboration,
}

/// The definition of a function or a macro of that name, which the datum is: its parameters, so many of them required and one behind
/// them or none, and the forms of its body.
#[derive(Drop)]
pub struct Defined<'a> {
    pub kind: DefinedAs,
    pub name: Name,
    pub datum: &'a Datum,
    pub required: usize,
    pub rest: bool,
    pub parts: Parts<'a>,
    pub inner: Inner<'a>,
}

/// The definition of methods of that name, which stands at that place: the generic function that takes them, the functions
/// of the methods, and their heads.
#[derive(Drop)]
pub struct DefinedMethods<'a> {
    pub place: Place,
    pub name: Name,
    pub taker: Taker,
    pub parts: Parts<'a>,
    pub heads: MethodHeads,
}

/// The definition of a class, whose name the datum is: the functions of its slots, and what is defined.
#[derive(Drop)]
pub struct DefinedClass<'a> {
    pub datum: &'a Datum,
    pub parts: Parts<'a>,
    pub class: NewClass,
}

/// An offence; a form that asks for a name which the table of names lacks; a literal; a core form that has neither parts nor
/// a site; one at its site; or the definition of a function, of methods or of a class.
#[derive(Drop)]
pub enum Draft<'a> {
    Offends(Place, Reason),
    Unnamed,
    Literal(LiteralRow),
    Unsited(Leaf),
    Sited(Sketch<'a>),
    Defines(Defined<'a>),
    DefinesMethods(DefinedMethods<'a>),
    DefinesClass(DefinedClass<'a>),
}

/// An offence.
pub fn offence<'a>(place: Place, reason: Reason) -> Draft<'a>
    ensures { result ≡ Draft.Offends place reason }
{
    Draft::Offends(place, reason)
}

/// What stands inside, and the parts.
#[derive(Drop)]
pub struct Bindings<'a> {
    pub inside: Spot,
    pub binds: BoundList,
    pub parts: Parts<'a>,
    pub inner: Inner<'a>,
}

/// A core form that binds these things inside.
pub fn made_of<'a>(
    here: FormContext,
    note: Note,
    work: Bindings<'a>,
    making: Elaboration,
) -> Draft<'a>
    requires { here.spot.depth + 1 < 4294967296 }
    ensures { shows here.entry result
        ≡ word.made_of (around here.entry) (at (here.entry.bound.now ++ work.entry.binds) work.entry.inside)
        here.entry.place (noting note here.entry.tables.now) (view_parts work.entry.parts ++ view_inner work.entry.inner) making }
{
    Draft::Sited(Sketch {
        note,
        outside: deeper(here.spot, 1),
        inside: work.inside,
        binds: work.binds,
        parts: work.parts,
        inner: work.inner,
        making,
    })
}

/// A core form that binds nothing but the variables among its parts.
#[tactic(auto, using(crate::proofs::Lists::nothing_bound))]
pub fn made_plain<'a>(
    here: FormContext,
    note: Note,
    inside: Spot,
    parts: Parts<'a>,
    inner: Inner<'a>,
    making: Elaboration,
) -> Draft<'a>
    requires { here.spot.depth + 1 < 4294967296 }
    ensures { shows here.entry result
        ≡ word.made_of (around here.entry) (at here.entry.bound.now inside)
        here.entry.place (noting note here.entry.tables.now) (view_parts parts.entry ++ view_inner inner.entry) making }
{
    let work = Bindings {
        inside,
        binds: BoundList::new(here.alloc),
        parts,
        inner,
    };
    made_of(here, note, work, making)
}

/// A core form all of whose parts stand where it stands, with so many core forms of its own.
#[tactic(auto, using(crate::proofs::Lists::nothing_inside))]
pub fn made_within<'a>(
    here: FormContext,
    note: Note,
    own: u32,
    parts: Parts<'a>,
    making: Elaboration,
) -> Draft<'a>
    ensures { shows here.entry result
        ≡ word.within_depth own (around here.entry) here.entry.place
        (word.made_of (around here.entry) (word.deeper 1 (around here.entry))
        here.entry.place (noting note here.entry.tables.now) (view_parts parts.entry) making) }
{
    if !fits_depth(here.spot, own) {
        drop(parts);
        drop(making);
        return offence(here.place, Reason::DepthLimit);
    }
    let inside = deeper(here.spot, 1);
    let inner = Inner::new(here.alloc);
    made_plain(here, note, inside, parts, inner, making)
}

/// A core form that has no parts.
pub fn made_at_once<'a>(here: FormContext, leaf: Leaf) -> Draft<'a>
    ensures { shows here.entry result
        ≡ word.made_at_once (around here.entry) here.entry.place here.entry.tables.now leaf }
{
    made_within(
        here,
        Note::Nothing,
        1,
        Parts::new(here.alloc),
        Elaboration::Ready(leaf),
    )
}

/// A form with one part.
pub fn one_part<'a>(here: FormContext, kind: One, datum: &'a Datum) -> Result<Draft<'a>, NoMemory>
    ensures { Draws here.entry
        (row.one_part (around here.entry) here.entry.place here.entry.tables.now kind datum.now) result }
{
    let parts = one_form(here.alloc, datum)?;
    Ok(made_within(here, Note::Nothing, 1, parts, Elaboration::OfOne(kind)))
}
