// How the evaluation of a program ends.

use crate::program::ClassId;
use base::Place;

/// How the evaluation of a program ended: with a value; with a condition of a class that no handler took, at the place of the form
/// that signalled it, or 0:0; for want of words, where more were asked for than were left; for want of levels; after as many forms
/// as may begin; or because the source failed, or the sink.
#[derive(Clone, Copy)]
pub enum EvaluationEnd {
    Value,
    Unhandled { class: ClassId, site: Place },
    Full { asked: u64, left: u64 },
    More,
    Spent,
    ReadFault,
    WriteFault,
}
