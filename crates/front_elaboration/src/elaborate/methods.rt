// Generic functions, and the methods that definitions give them (ISO/IEC 13816:2007, 15.3).

ghost use Rattle.std.specs.Prelude.{◌≡◌, ◌+◌, ◌<◌, ◌∷◌, length, drop, slice_get, IfOk, OnOk, OnErr};
ghost use Rattle.front_profile.specs.Elaborations.{generic_named, with_generic, with_method_at, with_methods, finish_methods};
ghost use Rattle.front_profile.specs.Marks.{TablesGrow};
ghost use Rattle.front_profile.specs.Suits.{SuitsName, SuitsHead, SuitsHeads, SuitsMethods};
ghost use Rattle.front_elaboration.specs.Stopping.{IsWant, rest_of};

use crate::elaborate::finish::{add_callee, one_more};
use base::{Name, NoMemory, Place, Stop};
use front_profile::{MethodHead, MethodHeads, Tables, Taker};
use lang_dispatch::Generics;
use lang_meaning::{Callee, ClassIds, GenericId, MethodRow, ProcedureId, Qualifier};
use std::alloc::Global;

/// The place of what cannot be refused.
pub(crate) const NO_PLACE: Place = Place { line: 0, column: 0 };

/// Want of memory: the stop of what cannot be refused.
pub(crate) fn want(stop: Stop) -> NoMemory
    requires { IsWant stop }
{
    match stop {
        Stop::Refused(_) => unreachable!(),
        Stop::NoMemory => NoMemory,
    }
}

/// The number of the generic function of that name; takes no memory.
pub(crate) fn generic_named(generics: &Generics, name: Name) -> Option<GenericId>
    ensures { result ≡ generic_named generics.now name }
{
    // No two rows have one name.
    generics.rows();
    generics.find(name)
}

/// A new generic function without methods, which its name calls from now on.
pub(crate) fn add_generic(
    name: Name,
    required: u32,
    rest: bool,
    of_file: bool,
    tables: &mut Tables,
) -> Result<GenericId, NoMemory>
    requires { SuitsName name tables.old }
    ensures number { IfOk result (λ generic. generic ≡ length tables.old.generics) }
    ensures ok { OnOk result (tables.new ≡ with_generic name required rest of_file tables.old) }
    ensures err { OnErr result (tables.new ≡ tables.old) }
{
    let generic = tables.generics.define(name, required, rest)?;
    if add_callee(name, Callee::Generic(generic), of_file, tables).is_err() {
        tables.generics.cut(generic);
        return Err(NoMemory);
    }
    Ok(generic)
}

// Whether the generic function takes a rest argument.
fn has_rest(generics: &Generics, generic: GenericId) -> bool
    ensures { result ≡ rest_of (slice_get generics.now generic) }
{
    match generics.rows().get(generic) {
        Some(row) => row.rest,
        None => false,
    }
}

/// A method with that head behind those of the generic function.
pub(crate) fn add_method(
    generic: GenericId,
    head: MethodHead,
    procedure: ProcedureId,
    tables: &mut Tables,
) -> Result<(), NoMemory>
    requires { SuitsHead generic head procedure tables.old }
    ensures ok { OnOk result (tables.new ≡ with_method_at generic head procedure tables.old) }
    ensures err { OnErr result (tables.new ≡ tables.old) }
{
    let rest = has_rest(&tables.generics, generic);
    let method = MethodRow {
        qualifier: head.qualifier,
        classes: head.classes,
        procedure,
    };
    match tables.generics.add_method(generic, NO_PLACE, rest, method) {
        Ok(()) => Ok(()),
        Err(stop) => Err(want(stop)),
    }
}

// Takes the head that stands there; takes no memory.
#[tactic(auto, using(crate::proofs::MakingLists::taken_out))]
fn take_head(alloc: Global, heads: &mut MethodHeads, at: usize) -> MethodHead
    requires { at < length heads.old }
    ensures item { drop at heads.old ≡ result ∷ drop (at + 1) heads.new }
    ensures length { length heads.new ≡ length heads.old }
{
    let nothing = MethodHead {
        qualifier: Qualifier::Primary,
        classes: ClassIds::new(alloc),
    };
    heads.replace(at, nothing)
}

// Methods with these heads, whose procedures are numbered from that one on.
fn add_methods(
    alloc: Global,
    generic: GenericId,
    heads: MethodHeads,
    first: ProcedureId,
    tables: &mut Tables,
) -> Result<(), NoMemory>
    requires { SuitsHeads generic heads first tables.old }
    ensures ok { OnOk result (tables.new ≡ with_methods generic heads first tables.old) }
    ensures err { OnErr result (TablesGrow tables.old tables.new) }
{
    let mut heads = heads;
    let mut procedure = first;
    for at in 0..heads.len() {
        let head = take_head(alloc, &mut heads, at);
        add_method(generic, head, procedure, tables)?;
        procedure = one_more(procedure)?;
    }
    Ok(())
}

/// Methods with these heads count, behind a new generic function where they are of one. After `NoMemory` some may.
pub(crate) fn define_methods(
    alloc: Global,
    taker: Taker,
    heads: MethodHeads,
    first: ProcedureId,
    of_file: bool,
    tables: &mut Tables,
) -> Result<(), NoMemory>
    requires { SuitsMethods taker heads first of_file tables.old }
    ensures ok { OnOk result (tables.new ≡ finish_methods taker heads first of_file tables.old) }
    ensures err { OnErr result (TablesGrow tables.old tables.new) }
{
    match taker {
        Taker::New(name, required, rest) => {
            match add_generic(name, required, rest, of_file, tables) {
                Ok(generic) => add_methods(alloc, generic, heads, first, tables),
                Err(stop) => {
                    drop(heads);
                    Err(stop)
                }
            }
        }
        Taker::There(generic) => add_methods(alloc, generic, heads, first, tables),
    }
}
