// How many groups of classes there are at an argument, and in how many of them a class stands above.

ghost use Rattle.std.specs.Prelude.{◌≡◌, ◌+◌, ◌≤◌, ℕ, List, [], true, length, IfOk, IfSome, OnOk};
ghost use Rattle.lang_meaning.specs.Classes.{precedence};
ghost use Rattle.lang_meaning.specs.Cells.{argument_classes};
ghost use Rattle.lang_dispatch.specs.OfClasses.{with_classes};
ghost use Rattle.front_cells.specs.Flags.{AreFlags};
ghost use Rattle.front_cells.specs.Groups.{AreRaised, IsRaised, AreGroupCounts, IsGroupMore};

use crate::copies::is_copy;
use crate::flags::{ClassFlags, mark, unmark};
use base::{ItemList, NoMemory};
use lang_meaning::{ClassId, ClassRows, GenericRow};
use std::alloc::Global;

/// For each class a number, in the order of classes.
pub(crate) type ClassCounts = ItemList<u64>;

/// No fewer than the groups at an argument, and for each class no fewer than those whose first class is it or below it.
#[derive(Drop)]
pub(crate) struct GroupCounts {
    pub(crate) groups: u64,
    pub(crate) below: ClassCounts,
}

// That many numbers of 0.
fn zeros(alloc: Global, count: usize) -> Result<ClassCounts, NoMemory> {
    let mut zeros = ItemList::new(alloc);
    for _class in 0..count {
        zeros.push(0)?;
    }
    Ok(zeros)
}

// The counts of these classes are one more; says whether all were raised.
fn raise_all(counts: &mut ClassCounts, classes: &[ClassId]) -> bool
    ensures { result ≡ true → AreRaised classes.now counts.old counts.new }
{
    for class in classes {
        if !raise(counts, *class) {
            return false;
        }
    }
    true
}

// The count of that class is one more; says whether it was raised.
fn raise(counts: &mut ClassCounts, class: ClassId) -> bool
    ensures { result ≡ true → IsRaised class counts.old counts.new }
{
    let Some(count) = counts.get(class) else {
        return false;
    };
    let Some(more) = count.checked_add(1) else {
        return false;
    };
    counts.replace(class, more);
    true
}

// A group more, with that first class; says whether it was counted.
fn count_class(counts: &mut GroupCounts, classes: &ClassRows, class: ClassId) -> bool
    ensures { result ≡ true → IsGroupMore (precedence (with_classes classes.now) class) counts.old counts.new }
{
    let Some(groups) = counts.groups.checked_add(1) else {
        return false;
    };
    let Some(row) = classes.get(class) else {
        return false;
    };
    counts.groups = groups;
    raise_all(&mut counts.below, row.precedence.as_slice())
}

// The groups, where the flags are those of the methods' classes; none where 64 bits do not tell, or a precedence list
// has what is no class.
fn count_marked(
    alloc: Global,
    classes: &ClassRows,
    flags: &ClassFlags,
) -> Result<Option<GroupCounts>, NoMemory>
    ensures { IfOk result (λ o. IfSome o
        (λ counts. (column : List ℕ) → AreFlags column flags.now → AreGroupCounts classes.now column counts)) }
{
    let mut counts = GroupCounts {
        groups: 0,
        below: zeros(alloc, classes.len())?,
    };
    for class in 0..classes.len() {
        let copy = is_copy(classes, flags, class);
        if !copy && !count_class(&mut counts, classes, class) {
            return Ok(None);
        }
    }
    Ok(Some(counts))
}

/// The groups at an argument, where no flag is set, and none is then; none where 64 bits do not tell.
pub(crate) fn count_groups(
    alloc: Global,
    classes: &ClassRows,
    flags: &mut ClassFlags,
    generic: &GenericRow,
    argument: usize,
) -> Result<Option<GroupCounts>, NoMemory>
    requires { AreFlags [] flags.old }
    ensures counted { IfOk result (λ o. IfSome o
        (λ counts. AreGroupCounts classes.now (argument_classes generic.now argument) counts)) }
    ensures cleared { OnOk result (AreFlags [] flags.new) }
{
    mark(flags, generic, argument);
    let counts = count_marked(alloc, classes, flags)?;
    unmark(flags, generic, argument);
    Ok(counts)
}
