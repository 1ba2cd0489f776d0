// What expands calls of macros.

ghost use Rattle.std.specs.Prelude.{◌≡◌, ◌≤◌, ◌+◌, length, IfOk, IfErr};
ghost use Rattle.base.specs.Data.{place_of};
ghost use Rattle.front_profile.specs.Expanders.{program_of};
ghost use Rattle.front_profile.specs.Expansions.{expander_words};
ghost use Rattle.front_programs.specs.Calls.{CallExpands, CallStops};
ghost use Rattle.rv_machine.specs.declared.ending.Ending.TheVariants.{Halt};
ghost use Rattle.top_expansion.specs.Calls.{IsCompiledCall, ShowsValue};
ghost use Rattle.top_expansion.specs.Runs.{HasRun};

use crate::compiling::compile;
use crate::expander_run::{ExpanderRun, WORDS, are_words, run_expander};
use back_build::{Built, law_values_left};
use base::{Datum, Names, Place, Reason, Stop};
use front_programs::{Expanding, MacroCall, refused};
use lang_alike::law_alike_data;
use lang_meaning::Program;
use mid_taken::take_datum;
use rv_machine::{Ending, Machine};
use std::alloc::Global;

/// What expands calls of macros: the program of each call is compiled and run on a machine of its own.
#[derive(Clone, Copy, Debug, Drop)]
pub struct Expander;

impl Expanding for Expander {
    fn expand(
        &mut self,
        alloc: Global,
        names: &Names,
        call: &MacroCall<'_>,
    ) -> Result<Datum, Stop> {
        let program = call.program(alloc)?;
        let result = expand_program(alloc, names, call, &program);
        drop(program);
        result
    }
}

// The datum that a call stands for whose program this is.
fn expand_program(
    alloc: Global,
    names: &Names,
    call: &MacroCall<'_>,
    program: &Program,
) -> Result<Datum, Stop>
    requires { program.now ≡ program_of call.now.tables.now call.now.macro_number call.now.datum.now }
    ensures expands { IfOk result (CallExpands names.now call.now) }
    ensures stops { IfErr result (CallStops names.now call.now) }
{
    let _rows = program.rows();
    let built = compile(alloc, names, program)?;
    let result = expand_built(alloc, names, call, &built);
    drop(built);
    result
}

// The datum of a call whose program was compiled.
fn expand_built(
    alloc: Global,
    names: &Names,
    call: &MacroCall<'_>,
    built: &Built,
) -> Result<Datum, Stop>
    requires { IsCompiledCall names.now call.now built.now }
    ensures expands { IfOk result (CallExpands names.now call.now) }
    ensures stops { IfErr result (CallStops names.now call.now) }
{
    if built.image.words() > WORDS {
        return Err(refused(call.datum, Reason::ExpanderArena));
    }
    let run = run_expander(alloc, &built.image)?;
    let result = answer(alloc, names, call, built, &run);
    drop(run);
    result
}

// What the end of its run says. It ends in no other ways than these.
fn answer(
    alloc: Global,
    names: &Names,
    call: &MacroCall<'_>,
    built: &Built,
    run: &ExpanderRun,
) -> Result<Datum, Stop>
    requires call { IsCompiledCall names.now call.now built.now }
    requires fits { length built.now.image.words ≤ expander_words }
    requires run { HasRun built.now.image run.now }
    ensures expands { IfOk result (CallExpands names.now call.now) }
    ensures stops { IfErr result (CallStops names.now call.now) }
{
    match run.ending {
        Ending::Halt(word) => halted(alloc, names, call, built, run, word),
        Ending::Unhandled(_) => Err(refused(call.datum, Reason::ExpanderUnhandled)),
        Ending::Full { .. } => Err(refused(call.datum, Reason::ExpanderArena)),
        Ending::Budget => Err(refused(call.datum, Reason::ExpanderBudget)),
        Ending::Trap(_, _) | Ending::ReadFault | Ending::WriteFault => unreachable!(),
    }
}

// What it says that it halted with that word.
fn halted(
    alloc: Global,
    names: &Names,
    call: &MacroCall<'_>,
    built: &Built,
    run: &ExpanderRun,
    word: u32,
) -> Result<Datum, Stop>
    requires call { IsCompiledCall names.now call.now built.now }
    requires fits { length built.now.image.words ≤ expander_words }
    requires run { HasRun built.now.image run.now }
    requires ending { run.now.ending ≡ Halt word }
    ensures expands { IfOk result (CallExpands names.now call.now) }
    ensures stops { IfErr result (CallStops names.now call.now) }
{
    law_values_left();
    if run.printed {
        return Err(refused(call.datum, Reason::ExpanderPrinted));
    }
    datum_of(alloc, names, call, built, run, word)
}

// The datum of the value with the word of which it halted, with nothing printed.
fn datum_of(
    alloc: Global,
    names: &Names,
    call: &MacroCall<'_>,
    built: &Built,
    run: &ExpanderRun,
    word: u32,
) -> Result<Datum, Stop>
    requires call { IsCompiledCall names.now call.now built.now }
    requires shows { ShowsValue names.now call.now built.now run.now.machine.state word }
    ensures expands { IfOk result (CallExpands names.now call.now) }
    ensures stops { IfErr result (CallStops names.now call.now) }
{
    law_alike_data();
    let place = place_of(call.datum);
    let machine: &Machine = &run.machine;
    let words = machine.arena();
    are_words(words);
    let symbols = built.symbols.as_slice();
    take_datum(alloc, words, word, place, call.number, symbols)
}

// Where a datum stands.
fn place_of(datum: &Datum) -> Place
    ensures { result ≡ place_of datum.now }
{
    datum.place
}
