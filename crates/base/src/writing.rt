// A sink is given all bytes of a piece, in as many writes as it takes.

ghost use Rattle.std.specs.Prelude.{◌≡◌, ◌≤◌, OnOk, OnErr, IsOk, []};
ghost use Rattle.base.specs.Outside.{Rose};
ghost use Rattle.base.specs.Given.{WasGiven, WasGivenFront};

use crate::{Failed, Sink};

/// Gives the sink all these bytes, in as many writes as it takes. After `Failed`, which comes only where the count of the
/// sink's faults rose, it was given a front of them.
pub fn write_all<E: Sink>(sink: &mut E, bytes: &[u8]) -> Result<(), Failed>
    ensures given { OnOk result (WasGiven (E.given sink.old) bytes.now (E.given sink.new)) }
    ensures front { OnErr result (WasGivenFront (E.given sink.old) bytes.now (E.given sink.new)) }
    ensures quiet { bytes.now ≡ [] → IsOk result }
    ensures fault { OnErr result (Rose (E.faults sink.old) (E.faults sink.new)) }
    ensures count { E.faults sink.old ≤ E.faults sink.new }
{
    let mut rest = bytes;
    while !rest.is_empty() {
        let taken = sink.write(rest)?;
        rest = &rest[taken..];
    }
    Ok(())
}
