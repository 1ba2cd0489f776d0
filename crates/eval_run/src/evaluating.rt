// A program is evaluated by its meaning.

ghost use Rattle.std.specs.Prelude.{◌≡◌, Some, None, IfOk, OnErr, MatchResult};
ghost use Rattle.base.specs.Outside.{Rose};
ghost use Rattle.lang_meaning.specs.Evaluates.{Evaluates, BreaksOff, Tells};
ghost use Rattle.eval_run.specs.UnderWay.{HasRun, HasCounted, end_told};
ghost use Rattle.eval_run.specs.Units.{Counts};
ghost use Rattle.eval_run.specs.Telling.{EvaluationTells};

use crate::answer::{Counted, untold};
use crate::setting_up::run_flat;
use crate::stop::Stop;
use base::{Names, NoMemory, Sink, Source};
use eval_machine::laws::law_machine;
use eval_machine::run_laws::{law_printing, law_reading, law_units, law_words};
use flat_conversion::flatten;
use flat_stores::law_stores;
use lang_meaning::{EvaluationEnd, Program};
use lang_told::law_alike_tellings;
use std::alloc::Global;

/// Evaluates a program with these names by its meaning (ISO/IEC 13816:2007, 12 to 29), within so many levels and words: reads of
/// the source what the program reads, in pieces of at most 4,096 bytes, and gives the sink what it prints, before each read
/// and at the end. The end and the bytes are those of the meaning. After 2^63 forms, when another one is to begin, it is `Spent`. A fault
/// comes only where the count of the source's faults, or of the sink's, rose. After a fault, `Spent` or `NoMemory` the sink was given a
/// beginning of what the program prints. At which configuration of the machine the run stopped is a clause of its own (`runs`).
pub fn evaluate<S: Source, K: Sink>(
    alloc: Global,
    program: &Program,
    names: &Names,
    levels: u64,
    words: u64,
    source: &mut S,
    sink: &mut K,
) -> Result<EvaluationEnd, NoMemory>
    ensures ends { IfOk result (Evaluates (record { names = names.now; program = program.now; levels = levels; words = words })
        (S.left source.old) (S.left source.new) (K.given sink.old) (K.given sink.new)) }
    ensures runs { IfOk result (HasRun (record { names = names.now; program = program.now; levels = levels; words = words })
        (S.left source.old) (S.left source.new) (K.given sink.old) (K.given sink.new)) }
    ensures fault { IfOk result (λ end. Tells end (Rose (S.faults source.old) (S.faults source.new)) (Rose (K.faults sink.old) (K.faults sink.new))) }
    ensures breaks_off { OnErr result (BreaksOff (record { names = names.now; program = program.now; levels = levels; words = words })
        (S.left source.old) (S.left source.new) (K.given sink.old) (K.given sink.new)) }
{
    match evaluate_counted(alloc, program, names, levels, words, source, sink) {
        Ok(counted) => Ok(counted.end),
        Err(fault) => Err(fault),
    }
}

/// The same as `evaluate`, and how many units the evaluation counted: where it came to an end of its own (a value, a condition that
/// is not handled, too few words or levels) those of the meaning, and 0 where it is `Spent` or a fault ended it. They are those of the
/// configuration of the machine at which the run stopped, too (`runs`). Of a condition that no handler took its slots are told, by the
/// objects that the program's meaning leaves; of every other end nothing (`tells`). Where memory is wanting for that, all was printed.
pub fn evaluate_counted<S: Source, K: Sink>(
    alloc: Global,
    program: &Program,
    names: &Names,
    levels: u64,
    words: u64,
    source: &mut S,
    sink: &mut K,
) -> Result<Counted, NoMemory>
    ensures ends { IfOk result (λ counted. Evaluates (record { names = names.now; program = program.now; levels = levels; words = words })
        (S.left source.old) (S.left source.new) (K.given sink.old) (K.given sink.new) counted.end) }
    ensures runs { IfOk result (HasCounted (record { names = names.now; program = program.now; levels = levels; words = words })
        (S.left source.old) (S.left source.new) (K.given sink.old) (K.given sink.new)) }
    ensures units { IfOk result (Counts (record { names = names.now; program = program.now; levels = levels; words = words }) (S.left source.old) (S.left source.new)) }
    ensures tells { IfOk result (EvaluationTells (record { names = names.now; program = program.now; levels = levels; words = words }) (S.left source.old) (S.left source.new)) }
    ensures fault { IfOk result (λ counted. Tells counted.end (Rose (S.faults source.old) (S.faults source.new)) (Rose (K.faults sink.old) (K.faults sink.new))) }
    ensures breaks_off { OnErr result (BreaksOff (record { names = names.now; program = program.now; levels = levels; words = words })
        (S.left source.old) (S.left source.new) (K.given sink.old) (K.given sink.new)) }
{
    law_machine();
    law_printing();
    law_reading();
    law_units();
    law_words();
    law_stores();
    law_alike_tellings();
    let _rows = program.rows();
    let flat = flatten(alloc, program)?;
    let ended = run_flat(alloc, &flat, names, levels, words, source, sink);
    drop(flat);
    end_of(alloc, ended)
}

// A stop by a fault is an end.
fn end_of(alloc: Global, ended: Result<Counted, Stop>) -> Result<Counted, NoMemory>
    ensures { MatchResult result (λ counted. end_told ended ≡ Some counted) (λ _. end_told ended ≡ None) }
{
    match ended {
        Ok(counted) => Ok(counted),
        Err(Stop::ReadFault) => Ok(untold(alloc, EvaluationEnd::ReadFault)),
        Err(Stop::WriteFault) => Ok(untold(alloc, EvaluationEnd::WriteFault)),
        Err(Stop::NoMemory) => Err(NoMemory),
    }
}
