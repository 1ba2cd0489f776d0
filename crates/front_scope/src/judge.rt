// Judging a form: what it is, then its parts one after another, then the core form that is made of them.

ghost use Rattle.std.specs.Prelude.{◌≡◌, ◌++◌, [], length};
ghost use Rattle.base.specs.WellFormedData.{WellFormed};
ghost use Rattle.front_profile.specs.Promises.{FormStops, PlainStops};
ghost use Rattle.front_profile.specs.Walks.{PartTaken, PartStops, PartsStop, WholeStops};
ghost use Rattle.front_profile.specs.FunctionNodes.{function_node};
ghost use Rattle.front_profile.specs.Sound.{weight, SoundFunction, SoundPart, AllSound};
ghost use Rattle.front_profile.specs.Known.{KnownTables, MakesSuited};
ghost use Rattle.front_programs.specs.Calls.{Begun};
ghost use Rattle.front_drafts.specs.Views.{at, view_part, view_parts, view_inner, view_function};
ghost use Rattle.front_scope.specs.Walk.{Walked, FormGives, PlainGives, WholeGives, NodeGives, NodeStops, ValueFound, AllFound, PartsFound, PartsEnded, InnerFound, InnerEnded};

use crate::calls::{Settled, settle_calls};
use crate::functions::{above_body, function_work};
use crate::keep::{complete_found, keep_binding, keep_value, take_parameter, take_variable};
use base::{Datum, Names, Refusal, Stop};
use front_context::Bindings;
use front_drafts::{Here, Inner, Part, Parts, Plan, Work, Written, deeper};
use front_elaboration::{Formed, FoundParts};
use front_forms::plain_plan;
use front_profile::whole_laws::{law_known, law_suits};
use front_profile::{BoundList, Spot, Tables};
use front_programs::Expanding;
use std::alloc::Global;

// Where the parts of a form stand.
#[derive(Clone, Copy)]
pub(crate) struct Spots {
    pub(crate) outside: Spot,
    pub(crate) inside: Spot,
}

/// Judges a datum that stands there: the core form that it stands for, with what it gave in the
/// tables; or its first offence. What is bound is as before on Ok.
#[cycle(judge)]
pub(crate) fn judge<X: Expanding>(
    alloc: Global,
    names: &mut Names,
    tables: &mut Tables,
    bound: &mut Bindings,
    spot: Spot,
    datum: &Datum,
    expander: &mut X,
) -> Result<Formed, Stop>
    requires known { KnownTables tables.old }
    requires begun { Begun tables.old }
    requires good { WellFormed (length names.old) datum.now }
    ensures { Walked names.old names.new tables.old tables.new bound.old bound.new result
        (FormGives names.new (at bound.old spot) tables.old datum.now tables.new)
        (FormStops names.new (at bound.old spot) tables.old datum.now) }
{
    let settled = settle_calls(alloc, names, tables, bound, spot, datum, expander)?;
    let Settled { found, spot: here } = settled;
    match found {
        None => judge_plain(alloc, names, tables, bound, here, datum, expander),
        Some(last) => {
            let form = judge_plain(alloc, names, tables, bound, here, &last, expander);
            drop(last);
            form
        }
    }
}

// Judges a datum that is neither a derived form nor a call of a macro.
#[cycle(judge)]
fn judge_plain<X: Expanding>(
    alloc: Global,
    names: &mut Names,
    tables: &mut Tables,
    bound: &mut Bindings,
    spot: Spot,
    datum: &Datum,
    expander: &mut X,
) -> Result<Formed, Stop>
    requires known { KnownTables tables.old }
    requires begun { Begun tables.old }
    requires good { WellFormed (length names.old) datum.now }
    ensures { Walked names.old names.new tables.old tables.new bound.old bound.new result
        (PlainGives names.new (at bound.old spot) tables.old datum.now tables.new)
        (PlainStops names.new (at bound.old spot) tables.old datum.now) }
{
    law_suits();
    let here = Here {
        alloc,
        bound,
        spot,
        place: datum.place,
    };
    let Ok(plan) = plain_plan(here, tables, names, datum) else {
        return Err(Stop::NoMemory);
    };
    match plan {
        Plan::Offends(place, reason) => Err(Stop::Refused(Refusal { place, reason })),
        Plan::Whole(work) => carry_out(alloc, names, tables, bound, spot, work, expander),
    }
}

// Judges the parts of a form that stands there, and makes the core form.
#[cycle(judge)]
fn carry_out<'a, X: Expanding>(
    alloc: Global,
    names: &mut Names,
    tables: &mut Tables,
    bound: &mut Bindings,
    spot: Spot,
    work: Work<'a>,
    expander: &mut X,
) -> Result<Formed, Stop>
    requires begun { Begun tables.old }
    requires suited { MakesSuited (at bound.old work.outside) (at (bound.old ++ work.binds) work.inside) tables.old (view_parts work.parts ++ view_inner work.inner) work.made }
    requires sound { AllSound (length names.old) (weight spot) (at bound.old work.outside) (at (bound.old ++ work.binds) work.inside) (view_parts work.parts ++ view_inner work.inner) }
    ensures { Walked names.old names.new tables.old tables.new bound.old bound.new result
        (WholeGives names.new (at bound.old work.entry.outside) (at (bound.old ++ work.entry.binds) work.entry.inside) tables.old
        (view_parts work.entry.parts ++ view_inner work.entry.inner) work.entry.made tables.new)
        (WholeStops names.new (at bound.old work.entry.outside) (at (bound.old ++ work.entry.binds) work.entry.inside) tables.old
        (view_parts work.entry.parts ++ view_inner work.entry.inner) work.entry.made) }
{
    law_suits();
    let spots = Spots {
        outside: work.outside,
        inside: work.inside,
    };
    let binds = work.binds;
    let mut found = FoundParts::new(alloc);
    let walked = judge_all(
        alloc,
        names,
        tables,
        bound,
        spot,
        spots,
        &work.parts,
        &work.inner,
        binds,
        &mut found,
        expander,
    );
    drop(work.parts);
    drop(work.inner);
    complete_found(alloc, walked, work.made, found, tables)
}

// Judges the parts of a form, those outside and then the forms inside, where what the form binds is bound.
#[cycle(judge)]
fn judge_all<X: Expanding>(
    alloc: Global,
    names: &mut Names,
    tables: &mut Tables,
    bound: &mut Bindings,
    spot: Spot,
    spots: Spots,
    parts: &Parts,
    inner: &Inner,
    binds: BoundList,
    found: &mut FoundParts,
    expander: &mut X,
) -> Result<(), Stop>
    requires known { KnownTables tables.old }
    requires begun { Begun tables.old }
    requires sound { AllSound (length names.old) (weight spot) (at bound.old spots.outside) (at (bound.old ++ binds) spots.inside) (view_parts parts.now ++ view_inner inner.now) }
    requires none { found.old ≡ [] }
    ensures { Walked names.old names.new tables.old tables.new bound.old bound.new result
        (λ _. AllFound names.new (at bound.old spots.outside) (at (bound.old ++ binds) spots.inside) tables.old (view_parts parts.now ++ view_inner inner.now) found.new tables.new)
        (PartsStop names.new (at bound.old spots.outside) (at (bound.old ++ binds) spots.inside) tables.old (view_parts parts.now ++ view_inner inner.now)) }
{
    law_known();
    let mut binds = binds;
    judge_parts(
        alloc, names, tables, bound, spot, spots, parts, &mut binds, found, expander,
    )?;
    let base = bound.len();
    let Ok(()) = bound.append_list(binds) else {
        return Err(Stop::NoMemory);
    };
    judge_inner(
        alloc, names, tables, bound, spot, spots, inner, found, expander,
    )?;
    bound.cut(base);
    Ok(())
}

// Judges a part that stands where the whole stands.
#[cycle(judge)]
fn judge_part<X: Expanding>(
    alloc: Global,
    names: &mut Names,
    tables: &mut Tables,
    bound: &mut Bindings,
    spot: Spot,
    spots: Spots,
    part: &Part,
    binds: &mut BoundList,
    found: &mut FoundParts,
    expander: &mut X,
) -> Result<(), Stop>
    requires known { KnownTables tables.old }
    requires begun { Begun tables.old }
    requires sound { SoundPart (length names.old) (weight spot) (at bound.old spots.outside) (at (bound.old ++ binds.old) spots.inside) (view_part part.now) }
    ensures { Walked names.old names.new tables.old tables.new bound.old bound.new result
        (λ _. PartTaken names.new (at bound.old spots.outside) (at (bound.old ++ binds.old) spots.inside) tables.old (view_part part.now)
        found.old (at (bound.old ++ binds.new) spots.inside) tables.new found.new)
        (PartStops names.new (at bound.old spots.outside) (at (bound.old ++ binds.old) spots.inside) tables.old (view_part part.now)) }
{
    match part {
        Part::Form(datum) => {
            judge_value(
                alloc,
                names,
                tables,
                bound,
                spots.outside,
                datum,
                found,
                expander,
            )
        }
        Part::Below(datum) => {
            let below = deeper(spots.outside, 1);
            judge_value(alloc, names, tables, bound, below, datum, found, expander)
        }
        Part::Bind(symbol, datum) => {
            let Ok(variable) = take_variable(tables) else {
                return Err(Stop::NoMemory);
            };
            let form = judge(alloc, names, tables, bound, spots.outside, datum, expander);
            keep_binding(*symbol, variable, form, binds, found)
        }
        Part::Parameter(symbol) => take_parameter(tables, *symbol, binds, found),
        Part::Wrong(place, reason) => Err(Stop::Refused(Refusal {
            place: *place,
            reason: *reason,
        })),
        Part::Function(written) => {
            let form = judge_function(
                alloc,
                names,
                tables,
                bound,
                spot,
                spots.outside,
                written,
                expander,
            );
            keep_value(form, found)
        }
    }
}

// Judges a function of a definition that stands there: its body stands alone.
#[cycle(judge)]
fn judge_function<X: Expanding>(
    alloc: Global,
    names: &mut Names,
    tables: &mut Tables,
    bound: &mut Bindings,
    spot: Spot,
    outside: Spot,
    written: &Written,
    expander: &mut X,
) -> Result<Formed, Stop>
    requires known { KnownTables tables.old }
    requires begun { Begun tables.old }
    requires sound { SoundFunction (length names.old) (weight spot) (view_function written.now) }
    ensures { Walked names.old names.new tables.old tables.new bound.old bound.new result
        (NodeGives names.new (function_node (at bound.old outside) tables.old (view_function written.now)) tables.new)
        (NodeStops names.new (function_node (at bound.old outside) tables.old (view_function written.now))) }
{
    law_suits();
    let Ok(work) = function_work(alloc, tables, outside, written) else {
        return Err(Stop::NoMemory);
    };
    carry_out(
        alloc,
        names,
        tables,
        bound,
        above_body(spot),
        work,
        expander,
    )
}

// Judges the parts that stand where the whole stands, in front of others.
#[cycle(judge)]
fn judge_parts<X: Expanding>(
    alloc: Global,
    names: &mut Names,
    tables: &mut Tables,
    bound: &mut Bindings,
    spot: Spot,
    spots: Spots,
    parts: &Parts,
    binds: &mut BoundList,
    found: &mut FoundParts,
    expander: &mut X,
) -> Result<(), Stop>
    requires known { KnownTables tables.old }
    requires begun { Begun tables.old }
    requires sound { AllSound (length names.old) (weight spot) (at bound.old spots.outside) (at (bound.old ++ binds.old) spots.inside) (view_parts parts.now) }
    requires none { found.old ≡ [] }
    ensures { Walked names.old names.new tables.old tables.new bound.old bound.new result
        (λ _. PartsFound names.new (at bound.old spots.outside) (at (bound.old ++ binds.old) spots.inside) tables.old (view_parts parts.now)
        found.new (at (bound.old ++ binds.new) spots.inside) tables.new)
        (PartsEnded names.new (at bound.old spots.outside) (at (bound.old ++ binds.old) spots.inside) tables.old (view_parts parts.now)) }
{
    law_known();
    for part in parts.as_slice() {
        judge_part(
            alloc, names, tables, bound, spot, spots, part, binds, found, expander,
        )?;
    }
    Ok(())
}

// Judges the forms inside, behind what was found.
#[cycle(judge)]
fn judge_inner<X: Expanding>(
    alloc: Global,
    names: &mut Names,
    tables: &mut Tables,
    bound: &mut Bindings,
    spot: Spot,
    spots: Spots,
    inner: &Inner,
    found: &mut FoundParts,
    expander: &mut X,
) -> Result<(), Stop>
    requires known { KnownTables tables.old }
    requires begun { Begun tables.old }
    requires sound { AllSound (length names.old) (weight spot) (at bound.old spots.outside) (at bound.old spots.inside) (view_inner inner.now) }
    ensures { Walked names.old names.new tables.old tables.new bound.old bound.new result
        (λ _. InnerFound names.old names.new (at bound.old spots.inside) tables.old (view_inner inner.now) found.old found.new tables.new)
        (InnerEnded names.old names.new (at bound.old spots.inside) tables.old (view_inner inner.now) found.old) }
{
    law_known();
    for datum in inner.as_slice() {
        judge_value(
            alloc,
            names,
            tables,
            bound,
            spots.inside,
            datum,
            found,
            expander,
        )?;
    }
    Ok(())
}

// Judges a form, which is found behind the others.
#[cycle(judge)]
fn judge_value<X: Expanding>(
    alloc: Global,
    names: &mut Names,
    tables: &mut Tables,
    bound: &mut Bindings,
    spot: Spot,
    datum: &Datum,
    found: &mut FoundParts,
    expander: &mut X,
) -> Result<(), Stop>
    requires known { KnownTables tables.old }
    requires begun { Begun tables.old }
    requires good { WellFormed (length names.old) datum.now }
    ensures { Walked names.old names.new tables.old tables.new bound.old bound.new result
        (λ _. ValueFound names.new (at bound.old spot) tables.old datum.now found.old tables.new found.new)
        (FormStops names.new (at bound.old spot) tables.old datum.now) }
{
    let form = judge(alloc, names, tables, bound, spot, datum, expander);
    keep_value(form, found)
}
