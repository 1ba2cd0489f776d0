// Tuples of one class of each list, by their numbers.

ghost use Rattle.std.specs.Prelude.{◌≡◌, ◌<◌, Some, IfOk, length, min, slice_get};
ghost use Rattle.lang_meaning.specs.Cells.{tuples};

use base::{ItemList, NoMemory};
use lang_meaning::ClassIds;
use std::alloc::Global;

/// How many tuples of one class of each list there are; 2^64 - 1 where that is more. Takes no
/// memory.
pub fn tuple_count(lists: &ItemList<ClassIds>) -> usize
    ensures { result ≡ min (length (tuples lists.now)) 18446744073709551615 }
{
    let mut count: usize = 1;
    for list in lists.as_slice() {
        count = count.saturating_mul(list.len());
    }
    count
}

/// The tuple of that number, where the first list counts most. Condition: `count` is the number of
/// tuples, and the number is below it.
pub fn tuple_at(
    alloc: Global,
    lists: &ItemList<ClassIds>,
    count: usize,
    index: usize,
) -> Result<ClassIds, NoMemory>
    requires counted { count ≡ length (tuples lists.now) }
    requires below { index < count }
    ensures { IfOk result (λ tuple. slice_get (tuples lists.now) index ≡ Some tuple) }
{
    let mut tuple = ClassIds::new(alloc);
    let mut left = count;
    let mut place = index;
    for list in lists.as_slice() {
        left /= list.len();
        let Some(class) = list.get(place / left) else {
            unreachable!()
        };
        tuple.push(*class)?;
        place %= left;
    }
    Ok(tuple)
}
