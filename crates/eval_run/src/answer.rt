// How an evaluation has ended, with what it counted and what is told of it.

ghost use Rattle.std.specs.Prelude.{◌≡◌};
ghost use Rattle.eval_run.specs.UnderWay.{untold};

use base::Bytes;
use lang_meaning::EvaluationEnd;
use std::alloc::Global;

/// How an evaluation ended, the units that it counted up to there (0 where it is `Spent`, or a fault ended it), and what is told of the
/// condition that no handler took; empty at every other end.
#[derive(Drop)]
pub struct Counted {
    pub end: EvaluationEnd,
    pub units: u64,
    pub told: Bytes,
}

// An end of which nothing is told.
pub(crate) fn untold(alloc: Global, end: EvaluationEnd) -> Counted
    ensures { result ≡ untold end }
{
    Counted {
        end,
        units: 0,
        told: Bytes::new(alloc),
    }
}
