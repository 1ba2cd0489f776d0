// How many classes stand below each class.

ghost use Rattle.std.specs.Prelude.{◌≡◌, ℕ, true, slice_get, Some, IfOk, IfSome};
ghost use Rattle.front_scope.specs.Below.{AreBelow, AreRaised, IsRaised};

use base::{ItemList, NoMemory};
use lang_classes::Classes;
use lang_meaning::ClassId;
use std::alloc::Global;

/// For each class a number, in the order of classes.
pub(crate) type ClassCounts = ItemList<u64>;

/// For each class no fewer than the classes that have it in their precedence lists: itself and those that stand below
/// it. None where 64 bits do not tell, or a list has what is no class.
pub(crate) fn below_counts(
    alloc: Global,
    classes: &Classes,
) -> Result<Option<ClassCounts>, NoMemory>
    ensures { IfOk result (λ o. IfSome o (λ counts. AreBelow classes.now.rows counts)) }
{
    let mut counts = zeros(alloc, classes.rows().len())?;
    if count_below(classes, &mut counts) {
        Ok(Some(counts))
    } else {
        Ok(None)
    }
}

// That many numbers of 0.
fn zeros(alloc: Global, count: usize) -> Result<ClassCounts, NoMemory> {
    let mut zeros = ItemList::new(alloc);
    for _class in 0..count {
        zeros.push(0)?;
    }
    Ok(zeros)
}

// Each class is counted for all that its precedence list has; says whether it was.
fn count_below(classes: &Classes, counts: &mut ClassCounts) -> bool
    ensures { result ≡ true → AreBelow classes.now.rows counts.new }
{
    for row in classes.rows().as_slice() {
        if !raise_all(counts, row.precedence.as_slice()) {
            return false;
        }
    }
    true
}

// The counts of these classes are one more; says whether all were raised.
fn raise_all(counts: &mut ClassCounts, classes: &[ClassId]) -> bool
    ensures { result ≡ true → AreRaised classes.now counts.old counts.new }
{
    for class in classes {
        if !raise(counts, *class) {
            return false;
        }
    }
    true
}

// The count of that class is one more; says whether it was raised.
fn raise(counts: &mut ClassCounts, class: ClassId) -> bool
    ensures { result ≡ true → IsRaised class counts.old counts.new }
{
    let Some(count) = counts.get(class) else {
        return false;
    };
    let Some(more) = count.checked_add(1) else {
        return false;
    };
    counts.replace(class, more);
    true
}
