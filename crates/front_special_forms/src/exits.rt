// The rows of exits: blocks and tags, which are lexical by name.

ghost use Rattle.std.specs.Prelude.{◌≡◌, ◌+◌, ◌<◌, ◌++◌, ◌∷◌, [], Some, None, IfOk};
ghost use Rattle.front_profile.specs.RowWords as word;
ghost use Rattle.front_profile.specs.ExitRows as row;
ghost use Rattle.front_profile.specs.Nodes.{with_bound};
ghost use Rattle.front_profile.specs.Shapes as shape;
ghost use Rattle.front_profile.specs.Names.{block_of};
ghost use Rattle.front_profile.specs.Shapes.{symbol_of};
ghost use Rattle.front_drafts.specs.Drafts.{around, shows, Draws};
ghost use Rattle.front_drafts.specs.Views.{view_inner};

use base::{Datum, NoMemory, Reason, Symbol};
use front_drafts::draft::{Bindings, Draft, Note, made_at_once, made_of, offence, one_part};
use front_drafts::here::{FormContext, deeper, fits_depth};
use front_drafts::plan::{Inner, Parts, inner_forms};
use front_profile::{Bound, BoundList, Elaboration, Leaf, One};
use front_syntax::shapes::{all_differ, forms_in, lengths_in, symbol_of, tags_in};

// What is not around, by its symbol: a fresh one is a bad shape.
fn no_such<'a>(here: FormContext, reason: Reason, symbol: Symbol) -> Draft<'a>
    ensures { shows here.entry result ≡ word.no_such here.entry.place reason (shape.name_of symbol) }
{
    match symbol {
        Symbol::Named(_) => offence(here.place, reason),
        Symbol::Fresh { .. } => offence(here.place, Reason::BadShape),
    }
}

// A body with an exit, which is bound in these forms.
fn exit_form<'a>(
    here: FormContext,
    bound: Bound,
    inner: Inner<'a>,
    making: Elaboration,
) -> Result<Draft<'a>, NoMemory>
    requires { here.spot.depth + 2 < 4294967296 }
    ensures { Draws here.entry
        (word.made_of (around here.entry)
        (with_bound bound (word.deeper 2 (around here.entry))) here.entry.place (row.with_exit here.entry.tables.now) (view_inner inner.entry) making) result }
{
    let mut binds = BoundList::new(here.alloc);
    let Ok(()) = binds.push(bound) else {
        drop(inner);
        drop(making);
        return Err(NoMemory);
    };
    let work = Bindings {
        inside: deeper(here.spot, 2),
        binds,
        parts: Parts::new(here.alloc),
        inner,
    };
    Ok(made_of(here, Note::Exit, work, making))
}

/// `(block name f*)`
pub fn block_draft<'a>(here: FormContext, items: &'a [Datum]) -> Result<Draft<'a>, NoMemory>
    ensures { Draws here.entry
        (row.block_row (around here.entry) here.entry.tables.now here.entry.place items.now) result }
{
    let [name, forms @ ..] = items else {
        return Ok(offence(here.place, Reason::BadShape));
    };
    let Some(symbol) = symbol_of(name) else {
        return Ok(offence(here.place, Reason::BadShape));
    };
    if !fits_depth(here.spot, 2) {
        return Ok(offence(here.place, Reason::DepthLimit));
    }
    let exit = here.tables.exits;
    let inner = inner_forms(here.alloc, forms)?;
    exit_form(
        here,
        Bound::Block(symbol, exit),
        inner,
        Elaboration::OfBlock(exit),
    )
}

/// `(return-from name x)`
pub fn return_from_draft<'a>(here: FormContext, items: &'a [Datum]) -> Result<Draft<'a>, NoMemory>
    ensures { Draws here.entry
        (row.return_from_row (around here.entry) here.entry.tables.now here.entry.place items.now) result }
{
    let [name, datum] = items else {
        return Ok(offence(here.place, Reason::BadShape));
    };
    let Some(symbol) = symbol_of(name) else {
        return Ok(offence(here.place, Reason::BadShape));
    };
    match here.bound.block_of(symbol) {
        Some(exit) => one_part(here, One::ReturnTo(exit), datum),
        None => Ok(no_such(here, Reason::UnknownBlock, symbol)),
    }
}

/// `(tagbody part*)`: a tag stands once.
#[tactic(auto, using(crate::proofs::Lists::shown_inner))]
pub fn tagbody_draft<'a>(here: FormContext, items: &'a [Datum]) -> Result<Draft<'a>, NoMemory>
    ensures { Draws here.entry
        (row.tagbody_row (around here.entry) here.entry.tables.now here.entry.place items.now) result }
{
    let tags = tags_in(here.alloc, items)?;
    if !all_differ(tags.as_slice()) {
        return Ok(offence(here.place, Reason::BadShape));
    }
    if !fits_depth(here.spot, 2) {
        return Ok(offence(here.place, Reason::DepthLimit));
    }
    let exit = here.tables.exits;
    let inner = forms_in(here.alloc, items)?;
    let lengths = lengths_in(here.alloc, items)?;
    exit_form(
        here,
        Bound::Tags(tags, exit),
        inner,
        Elaboration::OfSegments(exit, lengths),
    )
}

/// `(go tag)`: a transfer to the segment behind a tag.
pub fn go_draft<'a>(here: FormContext, items: &[Datum]) -> Result<Draft<'a>, NoMemory>
    ensures { Draws here.entry
        (row.go_row (around here.entry) here.entry.tables.now here.entry.place items.now) result }
{
    let [tag] = items else {
        return Ok(offence(here.place, Reason::BadShape));
    };
    let Some(symbol) = symbol_of(tag) else {
        return Ok(offence(here.place, Reason::BadShape));
    };
    let Some(target) = here.bound.tag_of(symbol) else {
        return Ok(no_such(here, Reason::UnknownTag, symbol));
    };
    let Ok(segment) = u32::try_from(target.segment) else {
        return Err(NoMemory);
    };
    Ok(made_at_once(here, Leaf::Go(target.exit, segment)))
}
