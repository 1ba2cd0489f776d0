// One step of a derived form.

ghost use Rattle.std.specs.Prelude.{◌≡◌, ◌++◌, length, Some, IfOk, IfErr, OnOk, OnErr};
ghost use Rattle.base.specs.model.DataView.{tail_of};
ghost use Rattle.base.specs.DataMeasures.{Formed, NamesBelow};
ghost use Rattle.base.specs.Names.{Extends};
ghost use Rattle.lang_derived.specs.Pieces.{Builds};
ghost use Rattle.lang_derived.specs.Table.{is_derived};
ghost use Rattle.lang_derived.specs.Derived.{right_of, row_right, first_right, table_right, by_name, list_derivation, derivation, new_symbols};
ghost use Rattle.lang_derived.specs.Patterns.{fit_all};
ghost use Rattle.lang_derived.specs.model.PatternView.{view_patterns};
ghost use Rattle.lang_derived.specs.model.TableView.{view_row, view_rows, view_groups};
ghost use Rattle.lang_derived.specs.Ranks.{rank};
ghost use Rattle.lang_derived.specs.Steps.{shown, IsStep, IsStop, StepStays, StopStays, RankFalls, IsWellFormedStep};

use crate::build::build;
use crate::pattern::{Parts, fit_all};
use crate::piece::{PieceList, nil};
use crate::right::Right;
use crate::table::{Row, names_some_row, table};
use crate::template::{Start, written};
use base::{
    Datum, FreshList, Kind, Names, NoMemory, Place, Reason, Refusal, Stop, Symbol, text_of,
};
use std::alloc::Global;

/// What a step makes of a datum: another datum, or nothing where it is no derived form.
#[derive(Drop)]
pub enum Step {
    Derived(Datum),
    Plain,
}

// What a datum is to the table: no derived form, a form that fits no row, or one with a right side.
#[derive(Drop)]
pub(crate) enum Derivation<'a> {
    Plain,
    Unfit,
    Becomes(Right<'a>),
}

// The one part of a list, with the number of these new symbols.
fn right_of<'a>(alloc: Global, parts: PieceList<'a>, new: &PieceList) -> Option<Right<'a>>
    ensures { result ≡ right_of parts.entry new.now }
{
    if parts.len() != 1 {
        return None;
    }
    let mut parts = parts;
    let piece = parts.replace(0, nil(alloc));
    let count = new.len() as u64;
    Some(Right { piece, count })
}

// What a row makes of the parts of a form.
fn parts_right<'a>(
    start: Start,
    row: &Row,
    parts: &Parts<'a>,
) -> Result<Option<Right<'a>>, NoMemory>
    ensures { IfOk result (λ right. right ≡ row_right start.entry.names.now start.entry.serial (view_row row.now) (Some parts.now)) }
{
    let right = written(start, row.right, parts)?;
    let new = written(start, row.new, parts)?;
    Ok(right_of(start.alloc, right, &new))
}

// What a row makes of the data behind its name.
fn row_right<'a>(
    start: Start,
    row: &Row,
    arguments: &'a [Datum],
) -> Result<Option<Right<'a>>, NoMemory>
    ensures { IfOk result (λ right. right ≡ row_right start.entry.names.now start.entry.serial (view_row row.now)
        (fit_all start.entry.names.now (view_patterns row.now.parts.now) arguments.now)) }
{
    let mut parts = Parts::new(start.alloc);
    if fit_all(start.alloc, start.names, row.parts, arguments, &mut parts)? {
        parts_right(start, row, &parts)
    } else {
        Ok(None)
    }
}

// What the first row of that name that the data fit makes of them.
fn first_right<'a>(
    start: Start,
    rows: &[Row],
    name: &[u8],
    arguments: &'a [Datum],
) -> Result<Option<Right<'a>>, NoMemory>
    ensures { IfOk result (λ right. right ≡ first_right start.entry.names.now start.entry.serial (view_rows rows.now) name.now arguments.now) }
{
    let Some((row, others)) = rows.split_first() else {
        return Ok(None);
    };
    if row.name != name {
        return first_right(start, others, name, arguments);
    }
    match row_right(start, row, arguments)? {
        Some(right) => Ok(Some(right)),
        None => first_right(start, others, name, arguments),
    }
}

// The same, of groups of rows.
fn table_right<'a>(
    start: Start,
    groups: &[&[Row]],
    name: &[u8],
    arguments: &'a [Datum],
) -> Result<Option<Right<'a>>, NoMemory>
    ensures { IfOk result (λ right. right ≡ table_right start.entry.names.now start.entry.serial (view_groups groups.now) name.now arguments.now) }
{
    let Some((rows, others)) = groups.split_first() else {
        return Ok(None);
    };
    match first_right(start, rows, name, arguments)? {
        Some(right) => Ok(Some(right)),
        None => table_right(start, others, name, arguments),
    }
}

/// Whether there are derived forms of that name. Takes no memory.
#[tactic(auto, unfolding(crate::specs::Table::is_derived))]
pub fn is_derived_name(name: &[u8]) -> bool
    ensures { result ≡ is_derived name.now }
{
    names_some_row(&table(), name)
}

// The data behind that name, with that tail.
fn by_name<'a>(
    start: Start,
    name: &[u8],
    arguments: &'a [Datum],
    tail: &Option<Box<Datum>>,
) -> Result<Derivation<'a>, NoMemory>
    ensures { IfOk result (λ found. shown found ≡ by_name start.entry.names.now start.entry.serial (Some name.now) arguments.now (tail_of tail.now)) }
{
    if !is_derived_name(name) {
        return Ok(Derivation::Plain);
    }
    let groups = table();
    if tail.is_some() {
        return Ok(Derivation::Unfit);
    }
    match table_right(start, &groups, name, arguments)? {
        Some(right) => Ok(Derivation::Becomes(right)),
        None => Ok(Derivation::Unfit),
    }
}

// A list of these items, with that tail.
fn list_derivation<'a>(
    start: Start,
    items: &'a [Datum],
    tail: &Option<Box<Datum>>,
) -> Result<Derivation<'a>, NoMemory>
    ensures { IfOk result (λ found. shown found ≡ list_derivation start.entry.names.now start.entry.serial items.now (tail_of tail.now)) }
{
    let [head, arguments @ ..] = items else {
        return Ok(Derivation::Plain);
    };
    match text_of(start.names, head) {
        Some(name) => by_name(start, name, arguments, tail),
        None => Ok(Derivation::Plain),
    }
}

#[tactic(auto, using(crate::proofs::Lists::shown_items), unfolding(crate::specs::Derived::derivation))]
fn derivation_of<'a>(start: Start, datum: &'a Datum) -> Result<Derivation<'a>, NoMemory>
    ensures { IfOk result (λ found. shown found ≡ derivation start.entry.names.now start.entry.serial datum.now) }
{
    match &datum.kind {
        Kind::List { items, tail } => { list_derivation(start, items.as_slice(), tail) }
        Kind::Int(_) => Ok(Derivation::Plain),
        Kind::Char(_) => Ok(Derivation::Plain),
        Kind::Sym(_) => Ok(Derivation::Plain),
        Kind::Str(_) => Ok(Derivation::Plain),
        Kind::Vector(_) => Ok(Derivation::Plain),
        Kind::Nil => Ok(Derivation::Plain),
    }
}

// Appends so many new symbols; after `NoMemory` the list is unchanged.
fn append_new(fresh: &mut FreshList, count: u64) -> Result<(), NoMemory>
    ensures ok { OnOk result (fresh.new ≡ fresh.old ++ new_symbols (length fresh.old) count) }
    ensures err { OnErr result (fresh.new ≡ fresh.old) }
{
    let before = fresh.len();
    for _turn in 0..count {
        let symbol = Symbol::Fresh {
            expansion: 0,
            serial: fresh.len() as u64,
        };
        if fresh.push(symbol).is_err() {
            fresh.cut(before);
            return Err(NoMemory);
        }
    }
    Ok(())
}

// The datum of a right side, for a form at that place, with its new symbols appended.
fn taken_step(
    alloc: Global,
    place: Place,
    right: Right,
    names: &mut Names,
    fresh: &mut FreshList,
) -> Result<Datum, NoMemory>
    ensures builds { IfOk result (λ datum. Builds names.new place right.entry.piece datum) }
    ensures ok { OnOk result (fresh.new ≡ fresh.old ++ new_symbols (length fresh.old) right.entry.count) }
    ensures err { OnErr result (fresh.new ≡ fresh.old) }
    ensures names { Extends names.old names.new }
{
    let Right { piece, count } = right;
    let built = build(alloc, names, place, &piece);
    drop(piece);
    let datum = built?;
    if append_new(fresh, count).is_err() {
        drop(datum);
        return Err(NoMemory);
    }
    Ok(datum)
}

// The stop of a form that fits no row.
fn bad_shape(place: Place) -> Stop
    ensures { result ≡ Stop.Refused (record { place = place; reason = Reason.BadShape }) }
{
    Stop::Refused(Refusal {
        place,
        reason: Reason::BadShape,
    })
}

/// One step of a derived form, by the table of derived forms. `Plain` comes exactly where the datum
/// is no list under a derived name. It is refused, by `BadShape` at its place, exactly where it is
/// one and fits no row, or would need a name `(setf s)` that there is not. Else it becomes the right
/// side of its row: what the step makes has the place of the form, and what it takes over keeps its
/// own. The new symbols have the serials from the length of `fresh` on, and are appended to it; it is
/// unchanged after a stop. Names may have been added, and those that were there keep their texts. The step,
/// or the stop, is the same under every later table of names, and what a step gives has a smaller
/// rank than the datum.
pub fn derive(
    alloc: Global,
    datum: &Datum,
    names: &mut Names,
    fresh: &mut FreshList,
) -> Result<Step, Stop>
    requires formed { Formed datum.now }
    requires named { NamesBelow (length names.old) datum.now }
    ensures step { IfOk result (λ step. IsStep names.new datum.now fresh.old step fresh.new) }
    ensures stop { IfErr result (λ stop. IsStop names.new datum.now (length fresh.old) stop) }
    ensures step_stays { IfOk result (λ step. StepStays names.new datum.now fresh.old step fresh.new) }
    ensures stop_stays { IfErr result (λ stop. StopStays names.new datum.now (length fresh.old) stop) }
    ensures falls { IfOk result (RankFalls names.new (rank names.old datum.now)) }
    ensures whole { IfOk result (IsWellFormedStep (length names.new)) }
    ensures fresh { OnErr result (fresh.new ≡ fresh.old) }
    ensures names { Extends names.old names.new }
{
    let serial = fresh.len() as u64;
    let start = Start {
        alloc,
        names,
        serial,
    };
    match derivation_of(start, datum)? {
        Derivation::Plain => Ok(Step::Plain),
        Derivation::Unfit => Err(bad_shape(datum.place)),
        Derivation::Becomes(right) => {
            let derived = taken_step(alloc, datum.place, right, names, fresh)?;
            Ok(Step::Derived(derived))
        }
    }
}
