// The rows of calls: of local functions, of primitives, of function objects, and of names.

ghost use Rattle.std.specs.Prelude.{◌≡◌, ◌+◌, ◌<◌, ◌++◌, ◌∷◌, [], ◌&&◌};
ghost use Rattle.front_profile.specs.CallRows as row;
ghost use Rattle.front_profile.specs.declared.elaboration.Elaboration.TheVariants.{CallOfValue};
ghost use Rattle.front_drafts.specs.Drafts.{around, Draws};
ghost use Rattle.front_drafts.specs.Views.{view_parts};
ghost use Rattle.front_profile.specs.RowWords as word;

use base::{Datum, Name, NoMemory};
use front_drafts::draft::{Draft, Note, made_within};
use front_drafts::here::FormContext;
use front_drafts::plan::{Parts, one_form, push_forms};
use front_profile::Elaboration;
use front_syntax::primitives::primitive_called;
use lang_meaning::{OverTwo, Primitive, Var};

/// A form with so many core forms of its own, all of whose parts stand where it stands: these, and behind them these forms.
pub(crate) fn with_forms<'a>(
    here: FormContext,
    own: u32,
    parts: Parts<'a>,
    making: Elaboration,
    items: &'a [Datum],
) -> Result<Draft<'a>, NoMemory>
    ensures { Draws here.entry
        (word.within_depth own (around here.entry) here.entry.place
        (word.made_of (around here.entry) (word.deeper 1 (around here.entry))
        here.entry.place here.entry.tables.now (view_parts parts.entry ++ word.each_form items.now) making)) result }
{
    let mut parts = parts;
    let Ok(()) = push_forms(&mut parts, items) else {
        drop(parts);
        drop(making);
        return Err(NoMemory);
    };
    Ok(made_within(here, Note::Nothing, own, parts, making))
}

/// A lambda form: the call of the function that its head gives, the operator first.
pub fn value_call_draft<'a>(
    here: FormContext,
    head: &'a Datum,
    items: &'a [Datum],
) -> Result<Draft<'a>, NoMemory>
    ensures { Draws here.entry
        (row.all_parts CallOfValue (around here.entry) here.entry.tables.now here.entry.place (head.now ∷ items.now)) result }
{
    let parts = one_form(here.alloc, head)?;
    with_forms(here, 1, parts, Elaboration::CallOfValue, items)
}

/// The call of a local function: a variable, and its name a form of its own inside the call.
pub fn local_call_draft<'a>(
    here: FormContext,
    variable: Var,
    items: &'a [Datum],
) -> Result<Draft<'a>, NoMemory>
    ensures { Draws here.entry
        (row.local_call variable (around here.entry) here.entry.tables.now here.entry.place items.now) result }
{
    let parts = Parts::new(here.alloc);
    with_forms(here, 2, parts, Elaboration::CallOfLocal(variable), items)
}

// A call of a primitive, or of the function of a name.
fn named_making(name: Name, primitive: Option<Primitive>) -> Elaboration
    ensures { result ≡ row.named_making name primitive }
{
    match primitive {
        Some(primitive) => Elaboration::CallOfPrimitive(primitive),
        None => Elaboration::CallOf(name),
    }
}

// A direct call of a function object.
fn is_value_call(text: &[u8], count: usize) -> bool
    ensures { result ≡ row.is_value_call text.now count }
{
    text == b"funcall".as_slice() && 1 <= count
}

// A call of that name with two arguments.
fn is_pair_call(text: &[u8], name: &[u8], count: usize) -> bool
    ensures { result ≡ row.is_pair_call text.now name.now count }
{
    text == name && count == 2
}

// What a call of a name is, by its arguments.
fn call_making(name: Name, text: &[u8], count: usize) -> Elaboration
    ensures { result ≡ row.call_making name text.now count }
{
    if is_value_call(text, count) {
        Elaboration::CallOfValue
    } else if is_pair_call(text, b"signal-condition", count) {
        Elaboration::OfTwo(OverTwo::Signal)
    } else if is_pair_call(text, b"continue-condition", count) {
        Elaboration::OfTwo(OverTwo::Continue)
    } else {
        named_making(name, primitive_called(text, count))
    }
}

/// The call of a name: of a function object, a signal, a primitive, or the function of that name.
pub fn named_call_draft<'a>(
    here: FormContext,
    name: Name,
    text: &[u8],
    items: &'a [Datum],
) -> Result<Draft<'a>, NoMemory>
    ensures { Draws here.entry
        (row.named_call name text.now (around here.entry) here.entry.tables.now here.entry.place items.now) result }
{
    let making = call_making(name, text, items.len());
    let parts = Parts::new(here.alloc);
    with_forms(here, 1, parts, making, items)
}
