// What was printed is written.

ghost use Rattle.std.specs.Prelude.{◌≡◌, ◌≤◌, [], List, ℕ, Option, Bool, OnOk, IfErr};
ghost use Rattle.base.specs.Outside.{Rose};
ghost use Rattle.lang_meaning.specs.Evaluation.{Evaluation};
ghost use Rattle.eval_run.specs.UnderWay.{UnderWay, StopsSo, StopTells};

use crate::stop::Stop;
use base::{Failed, Sink, write_all};
use eval_step::evaluator::Evaluator;

// So many bytes are written at once.
const PIECE: usize = 4096;

/// All that was printed is written. `WriteFault` only where the count of the sink's faults rose; then a front of it was written.
pub(crate) fn write_printed<K: Sink>(
    evaluator: &mut Evaluator<'_>,
    sink: &mut K,
) -> Result<(), Stop>
    ensures under_way { OnOk result ((e : Evaluation) (left left' given : Option (List ℕ)) (forms : ℕ)
        → UnderWay e left left' given (K.given sink.old) forms evaluator.old
        → UnderWay e left left' given (K.given sink.new) forms evaluator.new) }
    ensures all { OnOk result (evaluator.new.printed.items ≡ []) }
    ensures same { OnOk result (evaluator.new ≡ record evaluator.old { printed = evaluator.new.printed }) }
    ensures stops { IfErr result (λ stop. (e : Evaluation) (left left' given : Option (List ℕ)) (forms : ℕ)
        → UnderWay e left left' given (K.given sink.old) forms evaluator.old
        → StopsSo stop e left left' given (K.given sink.new)) }
    ensures fault { IfErr result (λ stop. StopTells stop ⊥ (Rose (K.faults sink.old) (K.faults sink.new))) }
    ensures count { K.faults sink.old ≤ K.faults sink.new }
{
    match write_all(sink, evaluator.printed()) {
        Ok(()) => {
            evaluator.written();
            Ok(())
        }
        Err(Failed) => Err(Stop::WriteFault),
    }
}

/// What was printed is written where it is much.
pub(crate) fn write_much<K: Sink>(evaluator: &mut Evaluator<'_>, sink: &mut K) -> Result<(), Stop>
    ensures under_way { OnOk result ((e : Evaluation) (left left' given : Option (List ℕ)) (forms : ℕ)
        → UnderWay e left left' given (K.given sink.old) forms evaluator.old
        → UnderWay e left left' given (K.given sink.new) forms evaluator.new) }
    ensures stops { IfErr result (λ stop. (e : Evaluation) (left left' given : Option (List ℕ)) (forms : ℕ)
        → UnderWay e left left' given (K.given sink.old) forms evaluator.old
        → StopsSo stop e left left' given (K.given sink.new)) }
    ensures fault { IfErr result (λ stop. StopTells stop ⊥ (Rose (K.faults sink.old) (K.faults sink.new))) }
    ensures count { K.faults sink.old ≤ K.faults sink.new }
{
    if evaluator.printed().len() < PIECE {
        return Ok(());
    }
    write_printed(evaluator, sink)
}
