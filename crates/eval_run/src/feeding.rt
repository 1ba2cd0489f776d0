// What is wanted is read.

ghost use Rattle.std.specs.Prelude.{◌≡◌, ◌≤◌, [], true, false, List, ℕ, Option, OnOk, IfErr};
ghost use Rattle.base.specs.Outside.{Rose};
ghost use Rattle.eval_step.specs.Streams.{control_reads, is_fed};
ghost use Rattle.lang_meaning.specs.Evaluation.{Evaluation};
ghost use Rattle.eval_run.specs.UnderWay.{UnderWay, StopsSo, StopTells, IsPutBehind};

use crate::stop::Stop;
use crate::writing::write_printed;
use base::{Failed, Sink, Source};
use eval_step::evaluator::Evaluator;

// So many bytes are asked for at once.
const PIECE: usize = 4096;

/// Reads where the next step wants a byte and none is there, behind all that was printed.
/// A fault only where the count of the source's faults, or of the sink's, rose.
pub(crate) fn feed<S: Source, K: Sink>(
    evaluator: &mut Evaluator<'_>,
    source: &mut S,
    sink: &mut K,
) -> Result<(), Stop>
    ensures under_way { OnOk result ((e : Evaluation) (left given : Option (List ℕ)) (forms : ℕ)
        → UnderWay e left (S.left source.old) given (K.given sink.old) forms evaluator.old
        → UnderWay e left (S.left source.new) given (K.given sink.new) forms evaluator.new) }
    ensures there { OnOk result (control_reads evaluator.new.machine.control ≡ true → is_fed evaluator.new ≡ true) }
    ensures same { OnOk result (evaluator.new.machine ≡ evaluator.old.machine) }
    ensures stops { IfErr result (λ stop. (e : Evaluation) (left given : Option (List ℕ)) (forms : ℕ)
        → UnderWay e left (S.left source.old) given (K.given sink.old) forms evaluator.old
        → StopsSo stop e left (S.left source.new) given (K.given sink.new)) }
    ensures fault { IfErr result (λ stop. StopTells stop (Rose (S.faults source.old) (S.faults source.new)) (Rose (K.faults sink.old) (K.faults sink.new))) }
    ensures count { S.faults source.old ≤ S.faults source.new }
    ensures sink_count { K.faults sink.old ≤ K.faults sink.new }
{
    if !evaluator.waits() {
        return Ok(());
    }
    write_printed(evaluator, sink)?;
    read_more(evaluator, source)
}

// Reads a piece, where the end was not met before.
fn read_more<S: Source>(evaluator: &mut Evaluator<'_>, source: &mut S) -> Result<(), Stop>
    requires wants { control_reads evaluator.old.machine.control ≡ true }
    requires hungry { is_fed evaluator.old ≡ false }
    requires written { evaluator.old.printed.items ≡ [] }
    ensures under_way { OnOk result ((e : Evaluation) (left given given' : Option (List ℕ)) (forms : ℕ)
        → UnderWay e left (S.left source.old) given given' forms evaluator.old
        → UnderWay e left (S.left source.new) given given' forms evaluator.new) }
    ensures there { OnOk result (is_fed evaluator.new ≡ true) }
    ensures same { OnOk result (evaluator.new.machine ≡ evaluator.old.machine) }
    ensures stops { IfErr result (λ stop. (e : Evaluation) (left given given' : Option (List ℕ)) (forms : ℕ)
        → UnderWay e left (S.left source.old) given given' forms evaluator.old
        → StopsSo stop e left (S.left source.new) given given') }
    ensures fault { IfErr result (λ stop. StopTells stop (Rose (S.faults source.old) (S.faults source.new)) ⊥) }
    ensures count { S.faults source.old ≤ S.faults source.new }
{
    let mut piece = [0u8; PIECE];
    match source.read(&mut piece) {
        Ok(count) => take_piece(evaluator, &piece[..count]),
        Err(Failed) => Err(Stop::ReadFault),
    }
}

// A piece that was read is there; none means that the end was met.
fn take_piece(evaluator: &mut Evaluator<'_>, bytes: &[u8]) -> Result<(), Stop>
    requires hungry { is_fed evaluator.old ≡ false }
    ensures under_way { OnOk result ((e : Evaluation) (left left' left'' given given' : Option (List ℕ)) (forms : ℕ)
        → IsPutBehind left' bytes.now left'' → UnderWay e left left' given given' forms evaluator.old
        → UnderWay e left left'' given given' forms evaluator.new) }
    ensures there { OnOk result (is_fed evaluator.new ≡ true) }
    ensures same { OnOk result (evaluator.new.machine ≡ evaluator.old.machine) }
    ensures stops { IfErr result (λ stop. (e : Evaluation) (left left' left'' given given' : Option (List ℕ)) (forms : ℕ)
        → IsPutBehind left' bytes.now left'' → UnderWay e left left' given given' forms evaluator.old
        → StopsSo stop e left left'' given given') }
    ensures fault { IfErr result (λ stop. StopTells stop ⊥ ⊥) }
{
    if bytes.is_empty() {
        evaluator.all_read();
        return Ok(());
    }
    evaluator.give_bytes(bytes)?;
    Ok(())
}
