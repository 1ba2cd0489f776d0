// Data that are still open: what was read of them so far.

use crate::chain::Chain;
use base::{DatumList, Name, Place};

/// A datum that is still open, with the place of its opening and the data so far.
#[derive(Drop)]
pub(crate) enum Pending {
    InList(Place, DatumList),
    // a list behind its dot, which stands at the second place
    AtDot(Place, DatumList, Place),
    // the same with the one datum behind the dot
    AtTail(Place, DatumList, Place, Chain),
    InVector(Place, DatumList),
    // a prefix with the name of its symbol
    AtPrefix(Place, Name),
}
