// The groups of classes at an argument of a generic function.

ghost use Rattle.std.specs.Prelude.{◌≡◌, ◌≢◌, ◌==◌, not, ℕ, List, [], ◌∷◌, ◌++◌, length, slice_index_or, filter, slice_get, Some, IfOk, OnOk, MatchOption};
ghost use Rattle.std.specs.List.{list_any};
ghost use Rattle.lang_meaning.specs.Lookup.{is_in};
ghost use Rattle.lang_meaning.specs.Cells.{argument_classes, is_specialised, group_of};
ghost use Rattle.lang_dispatch.specs.OfClasses.{with_classes};
ghost use Rattle.lang_dispatch.specs.GroupNumbers.{AreGroups, IsClassGrouped};

use base::{ItemList, NoMemory};
use lang_meaning::{ClassId, ClassIds, ClassRows, GenericRow};
use std::alloc::Global;

/// Numbers of groups, from 0, by the numbers of classes.
pub type GroupNumbers = ItemList<usize>;

/// The groups of classes at an argument: the first class of each group in the order of their
/// numbers, for each class the number of its group, and whether the argument is specialised.
#[derive(Drop)]
pub struct ArgumentGroups {
    pub firsts: ClassIds,
    pub numbers: GroupNumbers,
    pub specialised: bool,
}

/// The groups of classes at that argument, counted from 0. Two classes are of one group where their
/// precedence lists have the same ones of the methods' classes there, in the same order.
pub fn argument_groups(
    alloc: Global,
    generic: &GenericRow,
    argument: usize,
    classes: &ClassRows,
) -> Result<ArgumentGroups, NoMemory>
    ensures { IfOk result
        (λ found. AreGroups (with_classes classes.now) generic.now argument found) }
{
    let column = argument_classes(alloc, generic, argument)?;
    let specialised = is_specialised(&column);
    let mut grouping = Grouping {
        firsts: ItemList::new(alloc),
        kept: ItemList::new(alloc),
        numbers: ItemList::new(alloc),
    };
    for class in 0..classes.len() {
        let group = group_of(alloc, classes, &column, class)?;
        grouping.take(class, group)?;
    }
    let Grouping {
        firsts,
        kept: _,
        numbers,
    } = grouping;
    Ok(ArgumentGroups {
        firsts,
        numbers,
        specialised,
    })
}

// The groups so far: the first class of each, what is above it, and the numbers of the classes.
#[derive(Drop)]
struct Grouping {
    firsts: ClassIds,
    kept: ItemList<ClassIds>,
    numbers: GroupNumbers,
}

impl Grouping {
    // Takes the next class, which has this group.
    fn take(&mut self, class: ClassId, group: ClassIds) -> Result<(), NoMemory>
        ensures { OnOk result (IsClassGrouped self.old self.new class group) }
    {
        match place_of(&self.kept, &group) {
            Some(number) => self.numbers.push(number),
            None => self.add(class, group),
        }
    }

    // A class that is the first of its group.
    fn add(&mut self, class: ClassId, group: ClassIds) -> Result<(), NoMemory>
        ensures { OnOk result (self.new ≡ record {
          firsts = self.old.firsts ++ class ∷ [];
          kept = self.old.kept ++ group ∷ [];
          numbers = self.old.numbers ++ length self.old.firsts ∷ [];
        }) }
    {
        self.numbers.push(self.firsts.len())?;
        self.firsts.push(class)?;
        self.kept.push(group)
    }
}

// The place of that group among the ones that are kept.
fn place_of(kept: &ItemList<ClassIds>, group: &ClassIds) -> Option<usize>
    ensures { MatchOption result
        ((k : ℕ) → (g : List ℕ) → slice_get kept.now k ≡ Some g → g ≢ group.now)
        (λ k. slice_get kept.now k ≡ Some group.now) }
{
    for at in 0..kept.len() {
        let Some(other) = kept.get(at) else {
            unreachable!()
        };
        if other.as_slice() == group.as_slice() {
            return Some(at);
        }
    }
    None
}

// What is above the class of those in the column.
fn group_of(
    alloc: Global,
    classes: &ClassRows,
    column: &ClassIds,
    class: ClassId,
) -> Result<ClassIds, NoMemory>
    ensures { IfOk result (λ group. group ≡ group_of (with_classes classes.now) column.now class) }
{
    match classes.get(class) {
        Some(row) => common(alloc, &row.precedence, column),
        None => Ok(ItemList::new(alloc)),
    }
}

// Those of the list that are in the column.
fn common(alloc: Global, list: &ClassIds, column: &ClassIds) -> Result<ClassIds, NoMemory>
    ensures { IfOk result (λ both. both ≡ filter (λ d. is_in d column.now) list.now) }
{
    let mut both = ItemList::new(alloc);
    for class in list.as_slice() {
        if contains(column, *class) {
            both.push(*class)?;
        }
    }
    Ok(both)
}

/// Whether the class is in the list; takes no memory.
pub fn contains(list: &ClassIds, class: ClassId) -> bool
    ensures { result ≡ is_in class list.now }
{
    for other in list.as_slice() {
        if class == *other {
            return true;
        }
    }
    false
}

// The classes that the methods have at the argument.
fn argument_classes(
    alloc: Global,
    generic: &GenericRow,
    argument: usize,
) -> Result<ClassIds, NoMemory>
    ensures { IfOk result (λ column. column ≡ argument_classes generic.now argument) }
{
    let mut column = ItemList::new(alloc);
    for method in generic.methods.as_slice() {
        column.push(class_at(&method.classes, argument))?;
    }
    Ok(column)
}

// The class at the argument, `<object>` where there is none.
fn class_at(classes: &ClassIds, argument: usize) -> ClassId
    ensures { result ≡ slice_index_or classes.now argument 0 }
{
    match classes.get(argument) {
        Some(class) => *class,
        None => 0,
    }
}

// Whether one of them is not `<object>`.
fn is_specialised(column: &ClassIds) -> bool
    ensures { result ≡ list_any (λ c. not (c == 0)) column.now }
{
    for class in column.as_slice() {
        if *class != 0 {
            return true;
        }
    }
    false
}
