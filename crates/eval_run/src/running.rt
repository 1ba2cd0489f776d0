// The run of a program, form by form.

ghost use Rattle.std.specs.Prelude.{◌≡◌, ◌≤◌, ◌+◌, true, false, List, ℕ, Option, Bool, OnOk, IfOk, IfErr};
ghost use Rattle.base.specs.Outside.{Rose};
ghost use Rattle.eval_machine.specs.Run.{begins};
ghost use Rattle.eval_store.specs.View.{Beside};
ghost use Rattle.eval_state.specs.View.{configuration_of};
ghost use Rattle.eval_step.specs.Advanced.{StopsBecause};
ghost use Rattle.eval_step.specs.Streams.{control_reads, is_fed};
ghost use Rattle.lang_meaning.specs.Evaluation.{Evaluation};
ghost use Rattle.lang_meaning.specs.Evaluates.{most_forms};
ghost use Rattle.eval_run.specs.UnderWay.{UnderWay, HasCounted, IsOwnEnd, StopsSo, StopTells};

use crate::answer::{Counted, untold};
use crate::end::counted_at;
use crate::feeding::feed;
use crate::stop::Stop;
use crate::writing::{write_much, write_printed};
use base::{Names, Sink, Source};
use eval_step::evaluator::Evaluator;
use lang_meaning::EvaluationEnd;

// So many forms may begin.
const MOST_FORMS: u64 = 9_223_372_036_854_775_808;

/// Runs the evaluation of a program with these names from its start to its end, or until 2^63 forms have begun and another one is to begin.
pub(crate) fn run<S: Source, K: Sink>(
    evaluator: &mut Evaluator<'_>,
    names: &Names,
    source: &mut S,
    sink: &mut K,
) -> Result<Counted, Stop>
    ensures ends { IfOk result (λ counted. (e : Evaluation) → e.names ≡ names.now
        → UnderWay e (S.left source.old) (S.left source.old) (K.given sink.old) (K.given sink.old) 0 evaluator.old
        → HasCounted e (S.left source.old) (S.left source.new) (K.given sink.old) (K.given sink.new) counted) }
    ensures own { IfOk result (λ counted. IsOwnEnd counted.end) }
    ensures stops { IfErr result (λ stop. (e : Evaluation)
        → UnderWay e (S.left source.old) (S.left source.old) (K.given sink.old) (K.given sink.old) 0 evaluator.old
        → StopsSo stop e (S.left source.old) (S.left source.new) (K.given sink.old) (K.given sink.new)) }
    ensures fault { IfErr result (λ stop. StopTells stop (Rose (S.faults source.old) (S.faults source.new)) (Rose (K.faults sink.old) (K.faults sink.new))) }
    ensures count { S.faults source.old ≤ S.faults source.new }
    ensures sink_count { K.faults sink.old ≤ K.faults sink.new }
{
    for _ in 0..MOST_FORMS {
        let more = to_form(evaluator)?;
        if !more {
            return finish(evaluator, names, sink);
        }
        feed(evaluator, source, sink)?;
        begin(evaluator)?;
        write_much(evaluator, sink)?;
    }
    let more = to_form(evaluator)?;
    if !more {
        return finish(evaluator, names, sink);
    }
    write_printed(evaluator, sink)?;
    let alloc = evaluator.machine.given.alloc;
    Ok(untold(alloc, EvaluationEnd::Spent))
}

// Steps up to the next form, or to the end; whether there is a form.
fn to_form(evaluator: &mut Evaluator<'_>) -> Result<bool, Stop>
    ensures under_way { IfOk result (λ more. (e : Evaluation) (left left' given given' : Option (List ℕ)) (forms : ℕ)
        → UnderWay e left left' given given' forms evaluator.old
        → UnderWay e left left' given given' forms evaluator.new) }
    ensures stopped { IfOk result (StopsBecause evaluator.new) }
    ensures stops { IfErr result (λ stop. (e : Evaluation) (left left' given given' : Option (List ℕ)) (forms : ℕ)
        → UnderWay e left left' given given' forms evaluator.old
        → StopsSo stop e left left' given given') }
    ensures fault { IfErr result (λ stop. StopTells stop ⊥ ⊥) }
{
    let more = evaluator.to_form()?;
    Ok(more)
}

// A form begins.
fn begin(evaluator: &mut Evaluator<'_>) -> Result<(), Stop>
    requires begins { (names : List (List ℕ)) (b : Beside) → begins (configuration_of names evaluator.old.machine b).control ≡ true }
    requires there { control_reads evaluator.old.machine.control ≡ true → is_fed evaluator.old ≡ true }
    ensures under_way { OnOk result ((e : Evaluation) (left left' given given' : Option (List ℕ)) (forms : ℕ)
        → UnderWay e left left' given given' forms evaluator.old
        → UnderWay e left left' given given' (forms + 1) evaluator.new) }
    ensures stops { IfErr result (λ stop. (e : Evaluation) (left left' given given' : Option (List ℕ)) (forms : ℕ)
        → UnderWay e left left' given given' forms evaluator.old
        → StopsSo stop e left left' given given') }
    ensures fault { IfErr result (λ stop. StopTells stop ⊥ ⊥) }
{
    let _ = evaluator.step()?;
    Ok(())
}

// All that was printed is written at the end; the end, the units, and what is told of a condition.
fn finish<K: Sink>(
    evaluator: &mut Evaluator<'_>,
    names: &Names,
    sink: &mut K,
) -> Result<Counted, Stop>
    requires ended { StopsBecause evaluator.old false }
    ensures ends { IfOk result (λ counted. (e : Evaluation) (left left' given : Option (List ℕ)) (forms : ℕ) → e.names ≡ names.now → forms ≤ most_forms
        → UnderWay e left left' given (K.given sink.old) forms evaluator.old
        → HasCounted e left left' given (K.given sink.new) counted) }
    ensures own { IfOk result (λ counted. IsOwnEnd counted.end) }
    ensures stops { IfErr result (λ stop. (e : Evaluation) (left left' given : Option (List ℕ)) (forms : ℕ)
        → UnderWay e left left' given (K.given sink.old) forms evaluator.old
        → StopsSo stop e left left' given (K.given sink.new)) }
    ensures fault { IfErr result (λ stop. StopTells stop ⊥ (Rose (K.faults sink.old) (K.faults sink.new))) }
    ensures count { K.faults sink.old ≤ K.faults sink.new }
{
    write_printed(evaluator, sink)?;
    let counted = counted_at(evaluator, names)?;
    Ok(counted)
}
