// What an action gives to the output by itself.

ghost use Rattle.std.specs.Prelude.{◌≡◌};
ghost use Rattle.base.specs.Outside.{Rose};
ghost use Rattle.top_main.specs.Answers.{BytesAnswers};

use base::{Failed, Sink, write_all};
use top_lines::CommandAnswer;

/// Writes these bytes. `WriteFault` only where the count of the sink's faults rose.
pub(crate) fn write_bytes<O: Sink>(out: &mut O, bytes: &[u8]) -> CommandAnswer
    ensures { BytesAnswers result bytes.now (O.given out.old) (O.given out.new)
        (Rose (O.faults out.old) (O.faults out.new)) }
{
    match write_all(out, bytes) {
        Ok(()) => CommandAnswer::Done,
        Err(Failed) => CommandAnswer::WriteFault,
    }
}
