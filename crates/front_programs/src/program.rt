// The program of a macro's call: what was defined before the top-level form, and the form that applies the expander.

ghost use Rattle.std.specs.Prelude.{◌≡◌, ◌≤◌, ◌<◌, ℕ, ◌∷◌, ◌++◌, [], length, take, IfOk, IfErr};
ghost use Rattle.base.specs.Data.{item, items_of, Tail, list};
ghost use Rattle.lang_meaning.specs.declared.program.LiteralRow.TheVariants as literal_row;
ghost use Rattle.front_profile.specs.Cuts.{ReachMethods, ReachesMark, cut_generics};
ghost use Rattle.front_profile.specs.Expanders as expanders;
ghost use Rattle.front_programs.specs.Calls.{IsCall, ProgramStops};

use crate::expanding::{MacroCall, refused};
use base::{Datum, DatumList, Kind, NoMemory, Place, Reason, Stop};
use front_profile::whole_laws::law_expanders;
use front_profile::{Lengths, Tables};
use lang_meaning::{
    CaptureList, ClassIds, ClassRows, Core, CoreForm, CoreList, GenericRow, GenericRows,
    LiteralRow, LiteralRows, MethodRow, MethodRows, Procedure, ProcedureList, Program, ProgramRows,
    VarList,
};
use lang_rows::copies;
use std::alloc::Global;

/// The most nodes that the program of a call may have.
const MOST_NODES: u64 = 100_000;

// Data, copied.
fn copy_items(alloc: Global, items: &[Datum]) -> Result<DatumList, NoMemory>
    ensures { IfOk result (λ copy. copy ≡ items.now) }
{
    let mut copied = DatumList::new(alloc);
    for datum in items {
        copied.push(datum.copy(alloc)?)?;
    }
    Ok(copied)
}

// The list of these data, at that place: nil where there are none.
fn list_at(alloc: Global, place: Place, items: &[Datum]) -> Result<Datum, NoMemory>
    ensures { IfOk result (λ d. d ≡ item place (expanders.list_of (items_of items.now))) }
{
    if items.is_empty() {
        return Ok(Datum::new(place, Kind::Nil));
    }
    let items = copy_items(alloc, items)?;
    Ok(Datum::new(place, Kind::List { items, tail: None }))
}

// The list of what stands behind the head of these data, at that place.
fn list_behind(alloc: Global, place: Place, items: &[Datum]) -> Result<Datum, NoMemory>
    ensures { IfOk result (λ d. (t : Tail) → d ≡ item place (expanders.behind_head (list (items_of items.now) t))) }
{
    match items.split_first() {
        None => Ok(Datum::new(place, Kind::Nil)),
        Some((_name, arguments)) => list_at(alloc, place, arguments),
    }
}

// The list of a call's arguments, where the call stands.
fn arguments(alloc: Global, datum: &Datum) -> Result<Datum, NoMemory>
    ensures { IfOk result (λ d. d ≡ expanders.arguments datum.now) }
{
    match &datum.kind {
        Kind::List { items, .. } => list_behind(alloc, datum.place, items.as_slice()),
        Kind::Int(_) | Kind::Char(_) | Kind::Sym(_) | Kind::Str(_) | Kind::Vector(_) | Kind::Nil =>
            Ok(Datum::new(datum.place, Kind::Nil)),
    }
}

// The literals, and the list of arguments as the last.
fn literals(alloc: Global, tables: &Tables, datum: &Datum) -> Result<LiteralRows, NoMemory>
    requires { ReachesMark tables.now.before tables.now }
    ensures { IfOk result (λ rows. rows
        ≡ (expanders.tables_before tables.now).literals ++ literal_row.Datum (expanders.arguments datum.now) ∷ []) }
{
    let mut rows = copies::literals(alloc, &tables.literals)?;
    rows.cut(tables.before.literals);
    rows.push(LiteralRow::Datum(arguments(alloc, datum)?))?;
    Ok(rows)
}

// Variables, copied.
fn variables(alloc: Global, list: &VarList) -> Result<VarList, NoMemory>
    ensures { IfOk result (λ copy. copy ≡ list.now) }
{
    let mut copied = VarList::new(alloc);
    for var in list.as_slice() {
        copied.push(*var)?;
    }
    Ok(copied)
}

// A procedure, copied.
fn copy_procedure(alloc: Global, row: &Procedure) -> Result<Procedure, NoMemory>
    ensures { IfOk result (λ copy. copy ≡ row.now) }
{
    let required = variables(alloc, &row.required)?;
    let body = row.body.copy(alloc)?;
    Ok(Procedure {
        name: row.name,
        required,
        rest: row.rest,
        body,
    })
}

// Procedures, copied.
fn procedures(alloc: Global, list: &ProcedureList) -> Result<ProcedureList, NoMemory>
    ensures { IfOk result (λ copy. copy ≡ list.now) }
{
    let mut copied = ProcedureList::new(alloc);
    for row in list.as_slice() {
        copied.push(copy_procedure(alloc, row)?)?;
    }
    Ok(copied)
}

// The classes.
fn classes(alloc: Global, tables: &Tables) -> Result<ClassRows, NoMemory>
    requires { ReachesMark tables.now.before tables.now }
    ensures { IfOk result (λ rows. rows ≡ (expanders.tables_before tables.now).classes.rows) }
{
    let mut rows = copies::classes(alloc, tables.classes.rows())?;
    rows.cut(tables.before.classes);
    Ok(rows)
}

// The classes of a method, copied.
fn class_ids(alloc: Global, list: &ClassIds) -> Result<ClassIds, NoMemory>
    ensures { IfOk result (λ copy. copy ≡ list.now) }
{
    let mut copied = ClassIds::new(alloc);
    for id in list.as_slice() {
        copied.push(*id)?;
    }
    Ok(copied)
}

// Methods, copied.
fn methods(alloc: Global, list: &MethodRows) -> Result<MethodRows, NoMemory>
    ensures { IfOk result (λ copy. copy ≡ list.now) }
{
    let mut copied = MethodRows::new(alloc);
    for row in list.as_slice() {
        let classes = class_ids(alloc, &row.classes)?;
        copied.push(MethodRow {
            qualifier: row.qualifier,
            classes,
            procedure: row.procedure,
        })?;
    }
    Ok(copied)
}

// A generic function with its first so many methods, copied.
fn first_methods(alloc: Global, row: &GenericRow, count: usize) -> Result<GenericRow, NoMemory>
    requires { count ≤ length row.now.methods }
    ensures { IfOk result (λ copy. copy ≡ record row.now { methods = take count row.now.methods }) }
{
    let mut methods = methods(alloc, &row.methods)?;
    methods.cut(count);
    Ok(GenericRow {
        name: row.name,
        required: row.required,
        rest: row.rest,
        methods,
    })
}

// So many generic functions, each with so many methods, copied.
fn first_generics(
    alloc: Global,
    list: &GenericRows,
    counts: &Lengths,
) -> Result<GenericRows, NoMemory>
    requires { ReachMethods counts.now list.now }
    ensures { IfOk result (λ copy. copy ≡ cut_generics counts.now list.now) }
{
    let mut copied = GenericRows::new(alloc);
    for at in 0..counts.len() {
        let Some(count) = counts.get(at) else {
            unreachable!()
        };
        let Some(row) = list.get(at) else {
            unreachable!()
        };
        copied.push(first_methods(alloc, row, *count)?)?;
    }
    Ok(copied)
}

// The function of a procedure, which captures nothing.
fn function_of(alloc: Global, procedure: &Procedure) -> Result<Core, NoMemory>
    ensures { IfOk result (λ core. core ≡ expanders.function_of_procedure (Some procedure.now)) }
{
    let required = variables(alloc, &procedure.required)?;
    let body = Box::new(alloc, procedure.body.copy(alloc)?)?;
    Ok(Core::new(CoreForm::Lambda(required, procedure.rest, body, CaptureList::new(alloc))))
}

// The function that expands calls of that macro; no forms where there is none.
fn expander(alloc: Global, tables: &Tables, macro_number: usize) -> Result<Core, NoMemory>
    requires { macro_number < length (expanders.tables_before tables.now).macros }
    ensures { IfOk result (λ core. core ≡ expanders.function_of_procedure (expanders.expander tables.now macro_number)) }
{
    let Some(row) = tables.macros.get(macro_number) else {
        unreachable!()
    };
    if row.procedure >= tables.before.procedures {
        return Ok(Core::sequence(CoreList::new(alloc)));
    }
    match tables.procedures.get(row.procedure) {
        None => Ok(Core::sequence(CoreList::new(alloc))),
        Some(procedure) => function_of(alloc, procedure),
    }
}

// The form that applies it to the list of arguments.
fn expander_form(alloc: Global, tables: &Tables, macro_number: usize) -> Result<Core, NoMemory>
    requires reaches { ReachesMark tables.now.before tables.now }
    requires there { macro_number < length (expanders.tables_before tables.now).macros }
    ensures { IfOk result (λ core. core ≡ expanders.expander_form tables.now macro_number) }
{
    let list = Box::new(alloc, Core::literal(tables.before.literals))?;
    let function = Box::new(alloc, expander(alloc, tables, macro_number)?)?;
    Ok(Core::new(CoreForm::Apply(function, list)))
}

// The one main form.
fn main_form(alloc: Global, tables: &Tables, macro_number: usize) -> Result<CoreList, NoMemory>
    requires reaches { ReachesMark tables.now.before tables.now }
    requires there { macro_number < length (expanders.tables_before tables.now).macros }
    ensures { IfOk result (λ main. main ≡ expanders.expander_form tables.now macro_number ∷ []) }
{
    let mut main = CoreList::new(alloc);
    main.push(expander_form(alloc, tables, macro_number)?)?;
    Ok(main)
}

// The rows of the program.
fn program_rows(
    alloc: Global,
    tables: &Tables,
    macro_number: usize,
    datum: &Datum,
) -> Result<ProgramRows, NoMemory>
    requires reaches { ReachesMark tables.now.before tables.now }
    requires there { macro_number < length (expanders.tables_before tables.now).macros }
    ensures { IfOk result (λ rows. rows ≡ expanders.program_of tables.now macro_number datum.now) }
{
    let literals = literals(alloc, tables, datum)?;
    let mut procedures = procedures(alloc, &tables.procedures)?;
    procedures.cut(tables.before.procedures);
    let classes = classes(alloc, tables)?;
    let generics = first_generics(alloc, tables.generics.rows(), &tables.before.methods)?;
    let mut functions = copies::functions(alloc, &tables.functions)?;
    functions.cut(tables.before.functions);
    let mut sites = copies::sites(alloc, &tables.sites)?;
    sites.cut(tables.before.sites);
    let main = main_form(alloc, tables, macro_number)?;
    Ok(ProgramRows {
        literals,
        procedures,
        classes,
        generics,
        functions,
        main,
        sites,
    })
}

impl<'a> MacroCall<'a> {
    /// The program of the call: what was defined before the top-level form, and one form that applies the expander to the
    /// list of the call's arguments. `ExpanderArena`, at the call, where it has more than 100,000 nodes. Condition: the
    /// macro was defined before the top-level form, and the call is in form with its names in the table.
    pub fn program(&self, alloc: Global) -> Result<Program, Stop>
        requires { (names : ℕ) × IsCall names self.now }
        ensures program { IfOk result (λ program. program ≡ expanders.program_of self.now.tables.now self.now.macro_number self.now.datum.now) }
        ensures stops { IfErr result (ProgramStops self.now) }
    {
        law_expanders();
        let datum = self.datum;
        let rows = program_rows(alloc, self.tables, self.macro_number, datum)?;
        if rows.nodes() > MOST_NODES {
            return Err(refused(datum, Reason::ExpanderArena));
        }
        Ok(Program::new(rows))
    }
}
