// What stands above a class: the superclasses that go together, and their precedence lists joined.

ghost use Rattle.std.specs.Prelude.{◌≡◌, ◌++◌, OnOk, IfOk, slice_get};
ghost use Rattle.std.specs.List.{list_all, list_any};
ghost use Rattle.lang_meaning.specs.Classes.{precedence_of};
ghost use Rattle.lang_meaning.specs.Lookup.{all_differ};
ghost use Rattle.lang_meaning.specs.Lookup.{is_in};
ghost use Rattle.lang_classes.specs.InheritedPrecedence as inherited;

use base::NoMemory;
use lang_meaning::{BUILT_IN_CLASSES, ClassId, ClassIds, ClassRows};
use std::alloc::Global;

/// The number of `<object>`.
const OBJECT: ClassId = 0;

/// The number of `<standard-object>`.
const STANDARD_OBJECT: ClassId = 17;

/// The number of `<error>`.
const ERROR: ClassId = 19;

/// The number of `<simple-error>`.
const SIMPLE_ERROR: ClassId = 25;

/// The precedence list of a class, empty where there is no such class.
pub fn precedence_of(rows: &ClassRows, class: ClassId) -> &[ClassId]
    ensures { result.now ≡ precedence_of (slice_get rows.now class) }
{
    match rows.get(class) {
        Some(row) => row.precedence.as_slice(),
        None => &[],
    }
}

/// Whether the class is one of these.
pub fn is_among(class: ClassId, classes: &[ClassId]) -> bool
    ensures { result ≡ is_in class classes.now }
{
    for other in classes {
        if class == *other {
            return true;
        }
    }
    false
}

/// Whether these may be the direct superclasses of one class.
#[tactic(auto, unfolding(crate::specs::InheritedPrecedence::supers_fit))]
pub fn supers_fit(rows: &ClassRows, supers: &[ClassId]) -> bool
    ensures { result ≡ inherited.supers_fit rows.now supers.now }
{
    all_open(supers) && all_go_together(rows, supers)
}

// Whether a class of a file may stand below this one.
fn is_open(class: ClassId) -> bool
    ensures { result ≡ inherited.is_open class }
{
    class == STANDARD_OBJECT || class == ERROR || class == SIMPLE_ERROR || BUILT_IN_CLASSES <= class
}

fn all_open(supers: &[ClassId]) -> bool
    ensures { result ≡ list_all inherited.is_open supers.now }
{
    for class in supers {
        if !is_open(*class) {
            return false;
        }
    }
    true
}

// Whether any two direct superclasses may share this class.
fn is_common(class: ClassId) -> bool
    ensures { result ≡ inherited.is_common class }
{
    class == STANDARD_OBJECT || class == OBJECT
}

// Whether two precedence lists share a class that they may not.
fn share_more(line: &[ClassId], other: &[ClassId]) -> bool
    ensures { result ≡ inherited.share_more line.now other.now }
{
    for class in line {
        if !is_common(*class) && is_among(*class, other) {
            return true;
        }
    }
    false
}

fn clash(rows: &ClassRows, one: ClassId, other: ClassId) -> bool
    ensures { result ≡ inherited.clash rows.now one other }
{
    one == other || share_more(precedence_of(rows, one), precedence_of(rows, other))
}

fn clashes(rows: &ClassRows, one: ClassId, others: &[ClassId]) -> bool
    ensures { result ≡ list_any (inherited.clash rows.now one) others.now }
{
    for other in others {
        if clash(rows, one, *other) {
            return true;
        }
    }
    false
}

fn all_go_together(rows: &ClassRows, supers: &[ClassId]) -> bool
    ensures { result ≡ all_differ (inherited.clash rows.now) supers.now }
{
    for (at, class) in supers.iter().enumerate() {
        if clashes(rows, *class, &supers[at + 1..]) {
            return false;
        }
    }
    true
}

/// What stands above a class of these direct superclasses.
#[tactic(auto, unfolding(crate::specs::InheritedPrecedence::above))]
pub fn above(alloc: Global, rows: &ClassRows, supers: &[ClassId]) -> Result<ClassIds, NoMemory>
    ensures { IfOk result (λ line. line ≡ inherited.above rows.now supers.now) }
{
    let lines = joined(alloc, rows, superclasses(supers))?;
    each_last(alloc, lines.as_slice())
}

// The direct superclasses: `<standard-object>` where none is given.
fn superclasses(supers: &[ClassId]) -> &[ClassId]
    ensures { result.now ≡ inherited.superclasses supers.now }
{
    match supers {
        [] => &[STANDARD_OBJECT],
        [_, ..] => supers,
    }
}

// Their precedence lists, one behind the other.
fn joined(alloc: Global, rows: &ClassRows, supers: &[ClassId]) -> Result<ClassIds, NoMemory>
    ensures { IfOk result (λ lines. lines ≡ inherited.joined rows.now supers.now) }
{
    let mut lines = ClassIds::new(alloc);
    for class in supers {
        append(&mut lines, precedence_of(rows, *class))?;
    }
    Ok(lines)
}

/// Appends classes. After `NoMemory` some of them may stand there.
pub fn append(list: &mut ClassIds, more: &[ClassId]) -> Result<(), NoMemory>
    ensures { OnOk result (list.new ≡ list.old ++ more.now) }
{
    for class in more {
        list.push(*class)?;
    }
    Ok(())
}

// Each class at its last place.
fn each_last(alloc: Global, classes: &[ClassId]) -> Result<ClassIds, NoMemory>
    ensures { IfOk result (λ kept. kept ≡ inherited.each_last classes.now) }
{
    let mut kept = ClassIds::new(alloc);
    for (at, class) in classes.iter().enumerate() {
        if !is_among(*class, &classes[at + 1..]) {
            kept.push(*class)?;
        }
    }
    Ok(kept)
}
