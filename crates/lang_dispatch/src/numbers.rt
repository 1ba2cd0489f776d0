// The numbers of generic functions by their names, when some are cut.

ghost use Rattle.std.specs.Prelude.{◌≤◌, length, take};
ghost use Rattle.lang_dispatch.specs.Methods.{names_of};
ghost use Rattle.lang_dispatch.specs.NameNumbers.{IsIndexed};

use lang_meaning::GenericRows;
use std::collections::BTreeMap;

/// Forgets the numbers of all but the first `len` of these generic functions; takes no memory.
pub fn forget(numbers: &mut BTreeMap<usize, usize>, rows: &GenericRows, len: usize)
    requires fits { len ≤ length rows.now }
    requires indexed { IsIndexed (names_of rows.now) numbers.old }
    ensures { IsIndexed (take len (names_of rows.now)) numbers.new }
{
    let mut left = rows.len();
    while len < left {
        left -= 1;
        let Some(row) = rows.get(left) else {
            unreachable!()
        };
        numbers.remove(&row.name.0);
    }
}
