// The functions of definitions: each is work that stands alone, with what it takes of the tables.

ghost use Rattle.std.specs.Prelude.{◌≡◌, false, ◌++◌, IfOk, OnOk};
ghost use Rattle.front_profile.specs.FunctionNodes as node;
ghost use Rattle.front_profile.specs.Marks.{TablesGrow};
ghost use Rattle.front_profile.specs.Nodes.{initform, accessor, method};
ghost use Rattle.front_profile.specs.RowWords as word;
ghost use Rattle.front_profile.specs.Shapes.{all_symbols};
ghost use Rattle.front_drafts.specs.Views.{view_parts, view_inner, view_function};
ghost use Rattle.front_scope.specs.Walk.{IsWorkOf, StandsAlone};

use base::{Datum, FreshList, Kind, Name, NoMemory, Symbol};
use front_drafts::{Inner, Part, Parts, Work, Written};
use front_profile::{Accessor, BoundList, Elaboration, Made, Parameters, Spot, Tables};
use lang_meaning::{LiteralRow, Var};
use std::alloc::Global;

// Where the body of a function of a definition stands: its depth begins anew.
fn alone_spot(spot: Spot, in_method: bool) -> Spot
    ensures { result ≡ word.alone_spot in_method spot }
{
    Spot {
        depth: 1,
        top: false,
        in_method,
        sited: spot.sited,
        in_row: 0,
    }
}

/// Right above such a body.
pub(crate) fn above_body(spot: Spot) -> Spot
    ensures { result ≡ record spot { depth = 0; top = false; in_row = 0 } }
{
    Spot {
        depth: 0,
        top: false,
        in_method: spot.in_method,
        sited: spot.sited,
        in_row: 0,
    }
}

// Appends parameters.
fn push_parameters(parts: &mut Parts, symbols: &FreshList) -> Result<(), NoMemory>
    ensures { OnOk result (view_parts parts.new ≡ view_parts parts.old ++ word.each_parameter symbols.now) }
{
    for symbol in symbols.as_slice() {
        parts.push(Part::Parameter(*symbol))?;
    }
    Ok(())
}

// All parameters of a function.
fn parameter_parts<'a>(alloc: Global, parameters: &Parameters) -> Result<Parts<'a>, NoMemory>
    ensures { IfOk result (λ parts. view_parts parts ≡ word.each_parameter (all_symbols parameters.now)) }
{
    let mut parts = Parts::new(alloc);
    push_parameters(&mut parts, &parameters.required)?;
    if let Some(symbol) = parameters.rest {
        parts.push(Part::Parameter(symbol))?;
    }
    Ok(parts)
}

// The forms of a body.
fn inner_forms<'a>(alloc: Global, items: &'a [Datum]) -> Result<Inner<'a>, NoMemory>
    ensures { IfOk result (λ inner. view_inner inner ≡ word.each_inner items.now) }
{
    let mut inner = Inner::new(alloc);
    for item in items {
        inner.push(item)?;
    }
    Ok(inner)
}

// The work of parts and forms that stand there, where nothing more is bound and no site is.
fn work_there<'a>(
    alloc: Global,
    spot: Spot,
    parts: Parts<'a>,
    inner: Inner<'a>,
    making: Elaboration,
) -> Work<'a>
    ensures { StandsAlone spot (view_parts parts.entry ++ view_inner inner.entry) making result }
{
    Work {
        outside: spot,
        inside: spot,
        binds: BoundList::new(alloc),
        parts,
        inner,
        made: Made { site: None, making },
    }
}

// How many variables the procedure of a slot's method has.
fn variables_of(accessor: Accessor) -> Var
    ensures { result ≡ node.variables_of accessor }
{
    match accessor {
        Accessor::Reads => 1,
        Accessor::Writes => 2,
        Accessor::Asks => 1,
    }
}

// The tables take the variables of a slot's method, and the slot's name as a literal.
fn take_accessor(tables: &mut Tables, kind: Accessor, slot: Datum) -> Result<(), NoMemory>
    ensures ok { OnOk result (tables.new ≡ node.with_accessor kind slot tables.old) }
    ensures grows { TablesGrow tables.old tables.new }
{
    let Some(behind) = tables.variables.checked_add(variables_of(kind)) else {
        drop(slot);
        return Err(NoMemory);
    };
    tables.literals.push(LiteralRow::Datum(slot))?;
    tables.variables = behind;
    Ok(())
}

// The function of an initform.
fn initform_work<'a>(
    alloc: Global,
    tables: &Tables,
    spot: Spot,
    datum: &'a Datum,
) -> Result<Work<'a>, NoMemory>
    ensures { IfOk result (IsWorkOf spot tables.now tables.now (initform datum.now)) }
{
    let mut inner = Inner::new(alloc);
    inner.push(datum)?;
    let making = Elaboration::OfProcedure(None, 0, false);
    let parts = Parts::new(alloc);
    Ok(work_there(alloc, alone_spot(spot, false), parts, inner, making))
}

// The function of a slot's option.
fn accessor_work<'a>(
    alloc: Global,
    tables: &mut Tables,
    spot: Spot,
    name: Name,
    kind: Accessor,
    slot: Datum,
) -> Result<Work<'a>, NoMemory>
    ensures work { IfOk result (IsWorkOf spot tables.old tables.new (accessor name kind slot)) }
    ensures grows { TablesGrow tables.old tables.new }
{
    let making = Elaboration::OfAccessor(name, kind, tables.variables, tables.literals.len());
    let Ok(()) = take_accessor(tables, kind, slot) else {
        drop(making);
        return Err(NoMemory);
    };
    let parts = Parts::new(alloc);
    Ok(work_there(alloc, spot, parts, Inner::new(alloc), making))
}

// The function of a method.
fn method_work<'a>(
    alloc: Global,
    tables: &Tables,
    spot: Spot,
    name: Name,
    has_next: bool,
    parameters: &Parameters,
    forms: &'a [Datum],
) -> Result<Work<'a>, NoMemory>
    ensures { IfOk result (IsWorkOf spot tables.now tables.now (method name has_next parameters.now forms.now)) }
{
    let parts = parameter_parts(alloc, parameters)?;
    let inner = inner_forms(alloc, forms)?;
    let required = parameters.required.len();
    let making = Elaboration::OfProcedure(Some(name), required, parameters.rest.is_some());
    Ok(work_there(alloc, alone_spot(spot, has_next), parts, inner, making))
}

/// The work that a function of a definition is, which stands there.
pub(crate) fn function_work<'a>(
    alloc: Global,
    tables: &mut Tables,
    spot: Spot,
    written: &Written<'a>,
) -> Result<Work<'a>, NoMemory>
    ensures work { IfOk result (IsWorkOf spot tables.old tables.new (view_function written.now)) }
    ensures grows { TablesGrow tables.old tables.new }
{
    match written {
        Written::Initform(datum) => initform_work(alloc, tables, spot, *datum),
        Written::Accessor(name, kind, place, slot) => {
            let slot = Datum::new(*place, Kind::Sym(Symbol::Named(*slot)));
            accessor_work(alloc, tables, spot, *name, *kind, slot)
        }
        Written::Method(name, has_next, parameters, forms) => {
            method_work(alloc, tables, spot, *name, *has_next, parameters, *forms)
        }
    }
}
