// The superclasses of a class definition: which are known, and whether they go together.

ghost use Rattle.std.specs.Prelude.{◌≡◌, ◌<◌, ◌++◌, ◌∷◌, [], Some, None, ◌&&◌, ◌||◌, not, nat_le, length, All, IfOk};
ghost use Rattle.std.specs.List.{list_any};
ghost use Rattle.lang_classes.specs.InheritedClasses.{inherited_names};
ghost use Rattle.lang_classes.specs.InheritedPrecedence.{supers_fit};
ghost use Rattle.lang_classes.specs.InheritedSlots.{each_first, same_name};
ghost use Rattle.front_profile.specs.ClassRows as row;
ghost use Rattle.front_syntax.specs.ClassDefinitions.{view_super, view_supers};

use base::{Name, NameList, NoMemory, Place};
use front_drafts::here::FormContext;
use front_syntax::slots::{WrittenSuper, WrittenSupers};
use lang_classes::Classes;
use lang_meaning::ClassIds;

// The most slots that a class may have.
const SLOT_LIMIT: usize = 64;

/// The superclasses that are known.
pub(crate) fn known_supers(here: FormContext, supers: &WrittenSupers) -> Result<ClassIds, NoMemory>
    ensures { IfOk result (λ known. known ≡ row.known_supers here.entry.tables.now.classes.rows (view_supers supers.now)) }
{
    let mut known = ClassIds::new(here.alloc);
    for one in supers.as_slice() {
        if let Some(class) = here.tables.classes.find(one.name) {
            known.push(class)?;
        }
    }
    Ok(known)
}

// The names of those that are not.
fn unknown_names(here: FormContext, supers: &WrittenSupers) -> Result<NameList, NoMemory>
    ensures { IfOk result (λ names. names ≡ row.unknown_names here.entry.tables.now.classes.rows (view_supers supers.now)) }
{
    let mut names = NameList::new(here.alloc);
    for one in supers.as_slice() {
        if here.tables.classes.find(one.name).is_none() {
            names.push(one.name)?;
        }
    }
    Ok(names)
}

/// Whether the name is among these.
pub(crate) fn has_name(names: &[Name], name: Name) -> bool
    ensures { result ≡ list_any (same_name name) names.now }
{
    for other in names {
        if name.0 == other.0 {
            return true;
        }
    }
    false
}

// Whether a name stands twice.
fn some_twice(names: &[Name]) -> bool
    ensures { result ≡ row.some_twice names.now }
{
    let Some((first, others)) = names.split_first() else {
        return false;
    };
    has_name(others, *first) || some_twice(others)
}

// Whether those that are known go together.
#[tactic(auto, using(crate::proofs::KnownSupers::known_there))]
fn known_fit(here: FormContext, supers: &WrittenSupers) -> Result<bool, NoMemory>
    ensures { IfOk result (λ fit. fit ≡ supers_fit here.entry.tables.now.classes.rows
        (row.known_supers here.entry.tables.now.classes.rows (view_supers supers.now))) }
{
    let known = known_supers(here, supers)?;
    Ok(here.tables.classes.supers_fit(known.as_slice()))
}

// Whether none of those that are not known stands twice.
fn unknown_differ(here: FormContext, supers: &WrittenSupers) -> Result<bool, NoMemory>
    ensures { IfOk result (λ differ. differ ≡ not (row.some_twice
        (row.unknown_names here.entry.tables.now.classes.rows (view_supers supers.now)))) }
{
    let names = unknown_names(here, supers)?;
    Ok(!some_twice(names.as_slice()))
}

/// Whether these may be the superclasses of one class, by what is known of them.
pub(crate) fn are_supers(here: FormContext, supers: &WrittenSupers) -> Result<bool, NoMemory>
    ensures { IfOk result (λ fit. fit ≡ row.are_supers here.entry.tables.now (view_supers supers.now)) }
{
    if known_fit(here, supers)? {
        unknown_differ(here, supers)
    } else {
        Ok(false)
    }
}

/// The names of the slots that they have.
pub(crate) fn inherited(here: FormContext, supers: &WrittenSupers) -> Result<NameList, NoMemory>
    ensures { IfOk result (λ names. names ≡ each_first (inherited_names here.entry.tables.now.classes
        (row.known_supers here.entry.tables.now.classes.rows (view_supers supers.now)))) }
{
    let known = known_supers(here, supers)?;
    here.tables.classes.inherited_names(known.as_slice())
}

/// Whether they have at most as many slots as a class may have.
pub(crate) fn few_inherited(here: FormContext, supers: &WrittenSupers) -> Result<bool, NoMemory>
    ensures { IfOk result (λ few. few ≡ row.few_inherited here.entry.tables.now (view_supers supers.now)) }
{
    let names = inherited(here, supers)?;
    Ok(names.len() <= SLOT_LIMIT)
}

// The place of a superclass that is not known.
fn unknown(classes: &Classes, one: WrittenSuper) -> Option<Place>
    ensures { result ≡ row.first_unknown_super classes.now.rows (view_super one ∷ []) }
{
    match classes.find(one.name) {
        Some(_) => None,
        None => Some(one.place),
    }
}

/// The place of the first superclass that is not known.
pub(crate) fn first_unknown(classes: &Classes, supers: &WrittenSupers) -> Option<Place>
    ensures { result ≡ row.first_unknown_super classes.now.rows (view_supers supers.now) }
{
    for one in supers.as_slice() {
        if let Some(place) = unknown(classes, *one) {
            return Some(place);
        }
    }
    None
}
