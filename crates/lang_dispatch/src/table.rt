// The table of one generic function.

ghost use Rattle.std.specs.Prelude.{◌≡◌, ◌≤◌, ◌++◌, ◌∷◌, [], IfOk, OnOk, MatchOption, map, length, slice_get, slice_index_or};
ghost use Rattle.std.specs.List.{range_with_len};
ghost use Rattle.lang_meaning.specs.declared.program.ProgramRows.{ProgramRows};
ghost use Rattle.lang_meaning.specs.declared.program.GenericRow.{GenericRow as Generic};
ghost use Rattle.lang_meaning.specs.Classes.{chain};
ghost use Rattle.lang_meaning.specs.Cells.{groups, tuples, generic_cells};
ghost use Rattle.lang_dispatch.specs.OfClasses.{with_classes};
ghost use Rattle.lang_dispatch.specs.Chains.{seen, maybe_seen};
ghost use Rattle.lang_dispatch.specs.Tables.{IsTableOf, AreMapsOf, AreCalled, IsPlaceOf, tuples_of, count_in, number_in, map_of};

use crate::chain::{Chain, chain_of};
use crate::groups::{ArgumentGroups, GroupNumbers, argument_groups};
use crate::tuples::{tuple_at, tuple_count};
use base::{ItemList, NoMemory};
use lang_meaning::{ClassId, ClassIds, ClassRows, GenericRow};
use std::alloc::Global;

/// The groups at an argument: one alone, or several with the number of each class's group.
#[derive(Drop)]
pub enum ArgumentMap {
    Whole,
    Mapped(usize, GroupNumbers),
}

impl ArgumentMap {
    // How many groups there are.
    fn count(&self) -> usize
        ensures { result ≡ count_in self.now }
    {
        match self {
            ArgumentMap::Whole => 1,
            ArgumentMap::Mapped(count, _) => *count,
        }
    }

    // The number of the group of the class.
    fn number(&self, class: ClassId) -> usize
        ensures { result ≡ number_in self.now class }
    {
        match self {
            ArgumentMap::Whole => 0,
            ArgumentMap::Mapped(_, numbers) => group_number(numbers, class),
        }
    }
}

fn group_number(numbers: &GroupNumbers, class: ClassId) -> usize
    ensures { result ≡ slice_index_or numbers.now class 0 }
{
    match numbers.get(class) {
        Some(number) => *number,
        None => 0,
    }
}

/// The groups at each argument, and a cell for each tuple of groups.
#[derive(Drop)]
pub struct Table {
    arguments: ItemList<ArgumentMap>,
    cells: ItemList<Option<Chain>>,
}

impl Table {
    /// The chain of a call with arguments of these classes, none exactly where no primary method
    /// applies. Takes no memory, and looks at one cell.
    pub fn chain(&self, classes: &[ClassId]) -> Option<&Chain>
        ensures { (program : ProgramRows) → (g : Generic) → IsTableOf program g self.now
            → AreCalled program g classes.now
            → MatchOption result (chain program g classes.now ≡ None)
            (λ c. chain program g classes.now ≡ Some (seen c.now)) }
    {
        match self.cell(index_of(&self.arguments, classes)) {
            Some(cell) => chain_in(cell),
            None => None,
        }
    }

    // The cell of that number.
    fn cell(&self, index: usize) -> Option<&Option<Chain>>
        ensures { MatchOption result (length self.now.cells ≤ index)
            (λ cell. slice_get self.now.cells index ≡ Some cell.now) }
    {
        self.cells.get(index)
    }
}

fn chain_in(cell: &Option<Chain>) -> Option<&Chain>
    ensures { MatchOption result (maybe_seen cell.now ≡ None)
        (λ c. maybe_seen cell.now ≡ Some (seen c.now)) }
{
    match cell {
        Some(chain) => Some(chain),
        None => None,
    }
}

// The number of the tuple of the groups of these classes: one look at the map of each argument, and
// one at the number that it has for the class.
fn index_of(arguments: &ItemList<ArgumentMap>, classes: &[ClassId]) -> usize
    ensures { (program : ProgramRows) → (g : Generic) → AreMapsOf program g arguments.now
        → AreCalled program g classes.now → length (tuples_of program g) ≤ 262144
        → IsPlaceOf program g classes.now result }
{
    let mut index: usize = 0;
    for at in 0..arguments.len() {
        let Some(argument) = arguments.get(at) else {
            unreachable!()
        };
        let Some(class) = classes.get(at) else {
            return index;
        };
        index = index
            .saturating_mul(argument.count())
            .saturating_add(argument.number(*class));
    }
    index
}

/// The table of a generic function. Condition: its cells are at most 262,144.
pub fn table_of(alloc: Global, generic: &GenericRow, classes: &ClassRows) -> Result<Table, NoMemory>
    requires { generic_cells (with_classes classes.now) generic.now ≤ 262144 }
    ensures { IfOk result (λ table. IsTableOf (with_classes classes.now) generic.now table) }
{
    let Maps { arguments, lists } = argument_maps(alloc, generic, classes)?;
    let cells = chains(alloc, generic, classes, &lists)?;
    Ok(Table { arguments, cells })
}

// The chain of each tuple of classes, one of each list.
fn chains(
    alloc: Global,
    generic: &GenericRow,
    classes: &ClassRows,
    lists: &ItemList<ClassIds>,
) -> Result<ItemList<Option<Chain>>, NoMemory>
    requires { length (tuples lists.now) ≤ 262144 }
    ensures { IfOk result (λ cells. map maybe_seen cells
        ≡ map (chain (with_classes classes.now) generic.now) (tuples lists.now)) }
{
    let mut cells = ItemList::new(alloc);
    let count = tuple_count(lists);
    for index in 0..count {
        let tuple = tuple_at(alloc, lists, count, index)?;
        let chain = chain_of(alloc, generic, classes, &tuple)?;
        cells.push(chain)?;
    }
    Ok(cells)
}

// The maps of arguments, with the first classes of the groups of each.
#[derive(Drop)]
struct Maps {
    arguments: ItemList<ArgumentMap>,
    lists: ItemList<ClassIds>,
}

impl Maps {
    // One argument more.
    fn take(&mut self, groups: ArgumentGroups) -> Result<(), NoMemory>
        ensures arguments { OnOk result (self.new.arguments ≡ self.old.arguments
            ++ map_of (length groups.firsts) groups.numbers ∷ []) }
        ensures lists { OnOk result (self.new.lists ≡ self.old.lists ++ groups.firsts ∷ []) }
    {
        let ArgumentGroups {
            firsts,
            numbers,
            specialised: _,
        } = groups;
        self.arguments.push(map_of(firsts.len(), numbers))?;
        self.lists.push(firsts)
    }
}

// The map of so many groups.
fn map_of(count: usize, numbers: GroupNumbers) -> ArgumentMap
    ensures { result ≡ map_of count numbers }
{
    if count == 1 {
        ArgumentMap::Whole
    } else {
        ArgumentMap::Mapped(count, numbers)
    }
}

fn argument_maps(alloc: Global, generic: &GenericRow, classes: &ClassRows) -> Result<Maps, NoMemory>
    ensures maps { IfOk result
        (λ m. AreMapsOf (with_classes classes.now) generic.now m.arguments) }
    ensures lists { IfOk result (λ m. m.lists
        ≡ map (groups (with_classes classes.now) generic.now) (range_with_len 0 generic.now.required)) }
{
    let mut maps = Maps {
        arguments: ItemList::new(alloc),
        lists: ItemList::new(alloc),
    };
    for argument in 0..generic.required {
        let groups = argument_groups(alloc, generic, argument as usize, classes)?;
        maps.take(groups)?;
    }
    Ok(maps)
}
