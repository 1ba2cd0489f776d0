// A flat program is laid out, and run from its start.

ghost use Rattle.std.specs.Prelude.{◌≡◌, ◌≤◌, IfOk, IfErr};
ghost use Rattle.std.specs.List.{sum_by};
ghost use Rattle.base.specs.Outside.{Rose};
ghost use Rattle.lang_meaning.specs.Cells.{generic_cells};
ghost use Rattle.flat_language.specs.FlatNodes as flat;
ghost use Rattle.lang_dispatch.specs.OfClasses.{with_classes};
ghost use Rattle.lang_dispatch.specs.Tables.{AreTablesOf};
ghost use Rattle.eval_store.specs.Spelling.{IsSpelling};
ghost use Rattle.eval_store.specs.InitialHeap.{IsInitialHeap};
ghost use Rattle.eval_state.specs.Sizes.{AreSizes};
ghost use Rattle.eval_run.specs.UnderWay.{IsOwnEnd, StopTells};
ghost use Rattle.eval_run.specs.FlatRun.{IsReady, FlatRuns, FlatStops};

use crate::answer::Counted;
use crate::running::run;
use crate::stop::Stop;
use base::{Names, NoMemory, Sink, Source};
use eval_primitives::Primitives;
use eval_state::given::Given;
use eval_state::sizes::Sizes;
use eval_step::evaluator::Evaluator;
use eval_store::{InitialHeap, Spellings, Store, lay_initial_heap};
use flat_language::FlatProgram;
use lang_dispatch::{Tables, tables};
use std::alloc::Global;

/// Runs a flat program with these levels and words. A fault only where the count of the source's faults, or of the sink's, rose.
pub(crate) fn run_flat<S: Source, K: Sink>(
    alloc: Global,
    program: &FlatProgram,
    names: &Names,
    levels: u64,
    words: u64,
    source: &mut S,
    sink: &mut K,
) -> Result<Counted, Stop>
    requires cells { sum_by (generic_cells (with_classes program.now.classes)) program.now.generics ≤ 262144 }
    ensures ends { IfOk result (FlatRuns names.now program.now levels words (S.left source.old) (S.left source.new) (K.given sink.old) (K.given sink.new)) }
    ensures own { IfOk result (λ counted. IsOwnEnd counted.end) }
    ensures stops { IfErr result (FlatStops names.now program.now levels words (S.left source.old) (S.left source.new) (K.given sink.old) (K.given sink.new)) }
    ensures fault { IfErr result (λ stop. StopTells stop (Rose (S.faults source.old) (S.faults source.new)) (Rose (K.faults sink.old) (K.faults sink.new))) }
{
    let spellings = Spellings::new(names);
    let layout = initial_heap_of(alloc, program, names, spellings)?;
    run_laid_out(
        alloc, program, names, spellings, &layout, levels, words, source, sink,
    )
}

// Where the first objects of a program stand, in every store that it is laid out in.
fn initial_heap_of(
    alloc: Global,
    program: &FlatProgram,
    names: &Names,
    spellings: Spellings,
) -> Result<InitialHeap, NoMemory>
    requires spelling { IsSpelling names.now spellings }
    ensures { IfOk result (λ layout. IsInitialHeap names.now (flat.tables program.now) layout) }
{
    let mut store = Store::new(alloc);
    lay_initial_heap(alloc, names, spellings, program, &mut store)
}

// Runs a program whose layout is there. The store of a run is made where all that the run borrows is there already, the initial heap too; so
// it is laid out anew, and the initial heap is that of another store.
fn run_laid_out<'p, S: Source, K: Sink>(
    alloc: Global,
    program: &'p FlatProgram,
    names: &'p Names,
    spellings: Spellings,
    layout: &'p InitialHeap,
    levels: u64,
    words: u64,
    source: &mut S,
    sink: &mut K,
) -> Result<Counted, Stop>
    requires cells { sum_by (generic_cells (with_classes program.now.classes)) program.now.generics ≤ 262144 }
    requires spelling { IsSpelling names.now spellings }
    requires layout { IsInitialHeap names.now (flat.tables program.now) layout.now }
    ensures ends { IfOk result (FlatRuns names.now program.now levels words (S.left source.old) (S.left source.new) (K.given sink.old) (K.given sink.new)) }
    ensures own { IfOk result (λ counted. IsOwnEnd counted.end) }
    ensures stops { IfErr result (FlatStops names.now program.now levels words (S.left source.old) (S.left source.new) (K.given sink.old) (K.given sink.new)) }
    ensures fault { IfErr result (λ stop. StopTells stop (Rose (S.faults source.old) (S.faults source.new)) (Rose (K.faults sink.old) (K.faults sink.new))) }
{
    let primitives = Primitives::new(alloc, names, spellings, program, layout)?;
    let mut store = Store::new(alloc);
    let _ = lay_initial_heap(alloc, names, spellings, program, &mut store)?;
    let sizes = Sizes::new(alloc, program)?;
    let tables = tables(alloc, &program.generics, &program.classes)?;
    run_fitted(
        alloc,
        program,
        names,
        spellings,
        layout,
        &primitives,
        &sizes,
        &tables,
        store,
        levels,
        words,
        source,
        sink,
    )
}

// Runs a program of which all is there that a run is given.
fn run_fitted<'p, S: Source, K: Sink>(
    alloc: Global,
    program: &'p FlatProgram,
    names: &'p Names,
    spellings: Spellings,
    layout: &'p InitialHeap,
    primitives: &'p Primitives<'p>,
    sizes: &'p Sizes,
    tables: &'p Tables,
    store: Store<'p>,
    levels: u64,
    words: u64,
    source: &mut S,
    sink: &mut K,
) -> Result<Counted, Stop>
    requires sizes { AreSizes program.now sizes.now }
    requires dispatch { AreTablesOf (with_classes program.now.classes) program.now.generics tables.now }
    ensures ends { IfOk result (λ counted. IsReady names.now program.now spellings layout.now primitives.now store.entry
        → FlatRuns names.now program.now levels words (S.left source.old) (S.left source.new) (K.given sink.old) (K.given sink.new) counted) }
    ensures own { IfOk result (λ counted. IsOwnEnd counted.end) }
    ensures stops { IfErr result (λ stop. IsReady names.now program.now spellings layout.now primitives.now store.entry
        → FlatStops names.now program.now levels words (S.left source.old) (S.left source.new) (K.given sink.old) (K.given sink.new) stop) }
    ensures fault { IfErr result (λ stop. StopTells stop (Rose (S.faults source.old) (S.faults source.new)) (Rose (K.faults sink.old) (K.faults sink.new))) }
{
    let given = Given {
        alloc,
        program,
        spellings,
        layout,
        primitives,
        sizes,
        tables,
        limit: Some(words),
    };
    let mut evaluator = Evaluator::start(given, store, levels)?;
    run(&mut evaluator, names, source, sink)
}
