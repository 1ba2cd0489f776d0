// The scope: what the top-level forms so far have defined, and the verdict on the next one.

ghost use Rattle.std.specs.Prelude.{◌≡◌, length, OnOk, OnErr, IfOk, IfErr};
ghost use Rattle.base.specs.WellFormedData.{WellFormed};
ghost use Rattle.base.specs.Names.{Extends};
ghost use Rattle.front_profile.specs.Marks.{TablesGrow};
ghost use Rattle.front_profile.specs.Definitions.{SoundTables};
ghost use Rattle.front_profile.specs.Cuts.{mark_of, opened};
ghost use Rattle.front_profile.specs.Promises.{FormStops};
ghost use Rattle.front_profile.specs.Known.{KnownTables};
ghost use Rattle.front_programs.specs.Calls.{Begun};
ghost use Rattle.front_scope.specs.Cells.{IsCountBefore, IsCountAfter};
ghost use Rattle.front_scope.specs.Walk.{FormGives};
ghost use Rattle.front_scope.specs.Scopes.{top, top_spot, with_main, rows_of, nodes_of, IsWhole, IsElaborated, IsTaken, IsFormStopped, AreInitialTables};

use crate::cells::{Taken, count_cells};
use crate::counts::with_added;
use crate::first::{first_tables, reserved_words};
use crate::judge::judge;
use crate::mark::{close, open};
use base::{Datum, Names, NoMemory, Origin, Reason, Stop};
use front_cells::CellCount;
use front_context::Bindings;
use front_elaboration::Formed;
use front_profile::whole_laws::{law_programs, law_suits, law_top_forms};
use front_profile::{Spot, Tables};
use front_programs::{Expanding, refused};
use lang_classes::Classes;
use lang_meaning::{Core, Program, ProgramRows, class_list_nodes};
use std::alloc::Global;
use std::marker::Model;

/// The most nodes that a program may have.
const MOST_NODES: u64 = 100_000;

/// What the top-level forms so far have defined. Contracts see it as the tables of the profile.
#[derive(Drop)]
pub struct Scope {
    alloc: Global,
    tables: Tables,
    nodes: u64,
    cells: CellCount,
}

impl Model for Scope {
    ghost use Rattle.front_profile.specs.declared.tables.Tables.{Tables};

    ghost Value = { Tables };

    ghost use Rattle.base.specs.contracts.datum.Datum as datum;
    ghost use Rattle.lang_meaning.specs.contracts.core_form.Core as core;
    ghost use Rattle.std.specs.Coded.{codes};

    ghost coded = { Prim.hlevel (codes, datum.the_row.coded, core.the_row.coded) };

    ghost view = { λ s. s.tables };

    ghost use Rattle.std.specs.Prelude.{◌≡◌};
    ghost use Rattle.front_scope.specs.Cells.{IsCountBefore};
    ghost use Rattle.front_scope.specs.Scopes.{nodes_of, IsWhole};

    ghost invariant = { λ s.
        (s.nodes ≡ nodes_of s.tables) × (IsWhole s.tables × IsCountBefore s.tables s.cells) };
}

// Where a top-level form stands: a form of a file has a site.
fn top_spot(origin: Origin) -> Spot
    ensures { result ≡ top_spot origin }
{
    let sited = match origin {
        Origin::Prelude => false,
        Origin::File => true,
    };
    Spot {
        depth: 0,
        top: true,
        in_method: false,
        sited,
        in_row: 0,
    }
}

// A form of a file is a main form.
fn add_main(origin: Origin, form: Core, tables: &mut Tables) -> Result<(), NoMemory>
    ensures ok { OnOk result (tables.new ≡ with_main origin form tables.old) }
    ensures grows { TablesGrow tables.old tables.new }
{
    match origin {
        Origin::Prelude => {
            drop(form);
            Ok(())
        }
        Origin::File => tables.main.push(form),
    }
}

// Judges a form where nothing is bound.
fn judge_alone<X: Expanding>(
    alloc: Global,
    names: &mut Names,
    tables: &mut Tables,
    datum: &Datum,
    origin: Origin,
    expander: &mut X,
) -> Result<Formed, Stop>
    requires good { WellFormed (length names.old) datum.now }
    requires known { KnownTables tables.old }
    requires begun { Begun tables.old }
    ensures gives { IfOk result (FormGives names.new (top origin) tables.old datum.now tables.new) }
    ensures stops { IfErr result (FormStops names.new (top origin) tables.old datum.now) }
    ensures names { Extends names.old names.new }
    ensures grows { TablesGrow tables.old tables.new }
{
    let mut bound = Bindings::new(alloc);
    let form = judge(
        alloc,
        names,
        tables,
        &mut bound,
        top_spot(origin),
        datum,
        expander,
    );
    drop(bound);
    form
}

// Judges a top-level form, which is a main form then where it stands in a file.
fn judge_top<X: Expanding>(
    alloc: Global,
    names: &mut Names,
    tables: &mut Tables,
    datum: &Datum,
    origin: Origin,
    expander: &mut X,
) -> Result<(), Stop>
    requires good { WellFormed (length names.old) datum.now }
    requires sound { SoundTables tables.old }
    requires begun { Begun tables.old }
    ensures given { OnOk result (IsElaborated names.new origin tables.old datum.now tables.new) }
    ensures stop { IfErr result (IsFormStopped names.new origin tables.old datum.now) }
    ensures names { Extends names.old names.new }
    ensures grows { TablesGrow tables.old tables.new }
{
    law_suits();
    let form = judge_alone(alloc, names, tables, datum, origin, expander)?;
    add_main(origin, form.into_core(), tables)?;
    Ok(())
}

// The same, with the nodes of the program then, which are within their limit, as its cells are.
fn take_form<X: Expanding>(
    alloc: Global,
    names: &mut Names,
    tables: &mut Tables,
    nodes: u64,
    cells: &CellCount,
    datum: &Datum,
    origin: Origin,
    expander: &mut X,
) -> Result<Taken, Stop>
    requires good { WellFormed (length names.old) datum.now }
    requires mark { tables.old.before ≡ mark_of tables.old }
    requires nodes { nodes ≡ nodes_of tables.old }
    requires whole { IsWhole tables.old }
    requires cells { IsCountBefore tables.old cells.now }
    ensures taken { OnOk result (IsTaken names.new origin tables.old datum.now tables.new) }
    ensures nodes { IfOk result (λ taken. taken.nodes ≡ nodes_of tables.new) }
    ensures cells { IfOk result (λ taken. IsCountAfter tables.new cells.now taken.cells) }
    ensures whole { OnOk result (IsWhole tables.new) }
    ensures stop { IfErr result (IsFormStopped names.new origin tables.old datum.now) }
    ensures names { Extends names.old names.new }
    ensures grows { TablesGrow tables.old tables.new }
{
    law_top_forms();
    judge_top(alloc, names, tables, datum, origin, expander)?;
    let nodes = with_added(tables, &tables.before, nodes);
    if nodes > MOST_NODES {
        return Err(refused(datum, Reason::ProgramTooLarge));
    }
    let cells = count_cells(alloc, tables, cells, datum)?;
    Ok(Taken { nodes, cells })
}

impl Scope {
    /// The scope in front of all forms: the built-in classes and no definition. The table of names
    /// keeps its names and may have gained some, after `NoMemory` too.
    pub fn new(alloc: Global, names: &mut Names) -> Result<Scope, NoMemory>
        ensures first { IfOk result (AreInitialTables names.new) }
        ensures names { Extends names.old names.new }
    {
        law_top_forms();
        let words = reserved_words(names)?;
        let classes = Classes::builtin(alloc, names)?;
        let nodes = class_list_nodes(classes.rows());
        let tables = first_tables(alloc, words, classes);
        let cells = CellCount::new(alloc, tables.classes.rows());
        Ok(Scope {
            alloc,
            tables,
            nodes,
            cells,
        })
    }

    /// Judges a top-level form of the prelude or of a file, and takes what it defines
    /// (ISO/IEC 13816:2007, 11 and 12). Of the macros, those apply that were defined before it, and
    /// their calls are expanded by what is given for that. It is refused by its first offence in preorder, with the place
    /// and the lowest reason there; else, at the form, by `ProgramTooLarge` where the program has more than 100,000
    /// nodes with it, and by `DispatchTooLarge` where its dispatch tables have more than 262,144 cells with it. The
    /// scope is unchanged after a stop; the table of names keeps its names and may have gained some. Condition: the datum is in form, and its names are in the table.
    pub fn form<X: Expanding>(
        &mut self,
        names: &mut Names,
        datum: &Datum,
        origin: Origin,
        expander: &mut X,
    ) -> Result<(), Stop>
        requires good { WellFormed (length names.old) datum.now }
        ensures taken { OnOk result (IsTaken names.new origin (opened self.old) datum.now self.new) }
        ensures stop { IfErr result (IsFormStopped names.new origin (opened self.old) datum.now) }
        ensures unchanged { OnErr result (self.new ≡ self.old) }
        ensures names { Extends names.old names.new }
    {
        let before = open(self.alloc, &mut self.tables)?;
        match take_form(
            self.alloc,
            names,
            &mut self.tables,
            self.nodes,
            &self.cells,
            datum,
            origin,
            expander,
        ) {
            Ok(Taken { nodes, cells }) => {
                drop(before);
                self.nodes = nodes;
                if let Some(cells) = cells {
                    self.cells = cells;
                }
                Ok(())
            }
            Err(stop) => {
                close(&mut self.tables, before);
                Err(stop)
            }
        }
    }

    /// The whole program of the forms that were taken, with its main forms.
    pub fn finish(self) -> Program
        ensures { result ≡ rows_of self }
    {
        law_programs();
        let tables = self.tables;
        Program::new(ProgramRows {
            literals: tables.literals,
            procedures: tables.procedures,
            classes: tables.classes.into_rows(),
            generics: tables.generics.into_rows(),
            functions: tables.functions,
            main: tables.main,
            sites: tables.sites,
        })
    }
}
