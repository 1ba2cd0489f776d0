// Classes that have at an argument the group of an earlier class, so that they make no group of their own.

ghost use Rattle.std.specs.Prelude.{◌≡◌, ◌≤◌, ℕ, List, true, false, length, IfSome};
ghost use Rattle.lang_meaning.specs.Lookup.{is_in};
ghost use Rattle.front_cells.specs.Flags.{AreFlags};
ghost use Rattle.front_cells.specs.Copies.{IsCopy, IsNextSet, HaveSameCommon};

use crate::flags::ClassFlags;
use lang_meaning::{ClassId, ClassRows};

// The place of the next one whose flag is set, from a place on, or the length; none where one has no flag.
fn next_set(flags: &ClassFlags, list: &[ClassId], from: usize) -> Option<usize>
    requires { from ≤ length list.now }
    ensures { IfSome result (λ at. IsNextSet flags.now list.now from at) }
{
    for at in from..list.len() {
        if *flags.get(list[at])? {
            return Some(at);
        }
    }
    Some(list.len())
}

// Whether the flag of a class is known not to be set.
fn is_unset(flags: &ClassFlags, class: ClassId) -> bool
    ensures { (classes : List ℕ) → AreFlags classes flags.now → result ≡ true → is_in class classes ≡ false }
{
    match flags.get(class) {
        Some(flag) => !*flag,
        None => false,
    }
}

// Whether it is found that two lists have the same ones whose flags are set, fewer than the first list has in all.
fn have_same_common(flags: &ClassFlags, list: &[ClassId], other: &[ClassId]) -> bool
    ensures { result ≡ true → HaveSameCommon flags.now list.now other.now }
{
    let mut at: usize = 0;
    let mut place: usize = 0;
    for _turn in 0..list.len() {
        let Some(next) = next_set(flags, list, at) else {
            return false;
        };
        let Some(other_next) = next_set(flags, other, place) else {
            return false;
        };
        if next == list.len() {
            return other_next == other.len();
        }
        if other_next == other.len() || list[next] != other[other_next] {
            return false;
        }
        at = next + 1;
        place = other_next + 1;
    }
    false
}

// The same of the precedence list of a class that has no flag and that of the first class above it.
fn adds_none(flags: &ClassFlags, list: &[ClassId], other: &[ClassId]) -> bool
    ensures { result ≡ true → HaveSameCommon flags.now list.now other.now }
{
    let [class, rest @ ..] = list else {
        return false;
    };
    if !is_unset(flags, *class) {
        return false;
    }
    *rest == *other || have_same_common(flags, list, other)
}

/// Whether it is found that the class has the group of an earlier one, namely of the first class above it, where the
/// flags are those of the methods' classes at an argument.
pub(crate) fn is_copy(classes: &ClassRows, flags: &ClassFlags, class: ClassId) -> bool
    ensures { (column : List ℕ) → AreFlags column flags.now → result ≡ true → IsCopy classes.now column class }
{
    let Some(row) = classes.get(class) else {
        return false;
    };
    let Some(parent) = row.precedence.get(1) else {
        return false;
    };
    if *parent >= class {
        return false;
    }
    let Some(above) = classes.get(*parent) else {
        return false;
    };
    adds_none(
        flags,
        row.precedence.as_slice(),
        above.precedence.as_slice(),
    )
}
