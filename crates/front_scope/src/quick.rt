// A bound on the cells of dispatch tables that is quickly told, by how many classes stand below each.

ghost use Rattle.std.specs.Prelude.{◌≡◌, ◌==◌, ◌≤◌, ◌&&◌, true, length, filter, slice_index_or, Some, IfOk, IfSome};
ghost use Rattle.std.specs.List.{range_with_len, sum_by};
ghost use Rattle.std.specs.Str.{bytes_eq};
ghost use Rattle.lang_meaning.specs.Cells.{groups, is_specialised, generic_cells};
ghost use Rattle.lang_dispatch.specs.OfClasses.{with_classes};
ghost use Rattle.front_scope.specs.Below.{AreBelow, special_below, special_at, is_special_at, places};
ghost use Rattle.front_scope.specs.Cells.{FewAt, all_tuples};
ghost use Rattle.front_profile.specs.Cuts.{method_counts};
ghost use Rattle.front_scope.specs.Scopes.{cells_of, most_cells};

use crate::below::{ClassCounts, below_counts};
use crate::mark::method_counts;
use base::NoMemory;
use front_profile::{Mark, Tables};
use lang_classes::Classes;
use lang_classes::laws::law_precedence;
use lang_meaning::{ClassId, GenericRow, MethodRow};
use std::alloc::Global;

/// The most cells that the dispatch tables of a program may have.
const MOST_CELLS: u64 = 262_144;

// Whether classes, generic functions and methods are as many as they were.
fn defines_nothing(alloc: Global, tables: &Tables, mark: &Mark) -> Result<bool, NoMemory>
    ensures { IfOk result (λ same. same
        ≡ (length tables.now.classes.rows == mark.now.classes && bytes_eq (method_counts tables.now.generics) mark.now.methods)) }
{
    let counts = method_counts(alloc, &tables.generics)?;
    let classes = tables.classes.rows().len();
    Ok(classes == mark.classes && counts.as_slice() == mark.methods.as_slice())
}

// The class of a method at the argument; `<object>` where it has none.
fn class_at(method: &MethodRow, argument: usize) -> ClassId
    ensures { result ≡ slice_index_or method.now.classes argument 0 }
{
    match method.classes.get(argument) {
        Some(class) => *class,
        None => 0,
    }
}

// Whether that of some method is another than `<object>`.
fn is_specialised(generic: &GenericRow, argument: usize) -> bool
    ensures { result ≡ is_special_at generic.now argument }
{
    for method in generic.methods.as_slice() {
        if class_at(method, argument) != 0 {
            return true;
        }
    }
    false
}

// No fewer than the arguments of which that is so.
fn specialised_arguments(generic: &GenericRow) -> u64
    ensures { length (filter (is_specialised generic.now) (range_with_len 0 generic.now.required)) ≤ result }
{
    let mut count: u64 = 0;
    for argument in 0..generic.required {
        if is_specialised(generic, argument as usize) {
            count += 1;
        }
    }
    count
}

// No fewer than the classes that stand below a class; of `<object>` none is counted.
fn most_special(_classes: &Classes, below: &ClassCounts, class: ClassId) -> Option<u64>
    requires { AreBelow _classes.now.rows below.now }
    ensures { IfSome result (λ most. special_below _classes.now.rows class ≤ most) }
{
    if class == 0 {
        return Some(0);
    }
    Some(*below.get(class)?)
}

// The sum of these, for the classes that the methods have at an argument.
fn most_specials(
    generic: &GenericRow,
    argument: usize,
    classes: &Classes,
    below: &ClassCounts,
) -> Option<u64>
    requires { AreBelow classes.now.rows below.now }
    ensures { IfSome result (λ most. sum_by (special_at classes.now.rows argument) generic.now.methods ≤ most) }
{
    let mut most: u64 = 0;
    for method in generic.methods.as_slice() {
        most = most.checked_add(most_special(classes, below, class_at(method, argument))?)?;
    }
    Some(most)
}

// No fewer than the groups of classes that the methods tell apart at the argument: one for each class; or one for each
// class below those that the methods have there, and two for all others: those below `<object>`, and those that are not.
fn most_groups(
    generic: &GenericRow,
    argument: usize,
    classes: &Classes,
    below: &ClassCounts,
) -> Option<u64>
    requires { AreBelow classes.now.rows below.now }
    ensures { IfSome result (λ most. length (groups (with_classes classes.now.rows) generic.now argument) ≤ most) }
{
    law_precedence();
    let all = classes.rows().len() as u64;
    let most = most_specials(generic, argument, classes, below)?.checked_add(2)?;
    Some(most.min(all))
}

// No fewer than the combinations of groups; none where 64 bits do not tell.
fn most_tuples(generic: &GenericRow, classes: &Classes, below: &ClassCounts) -> Option<u64>
    requires { AreBelow classes.now.rows below.now }
    ensures { IfSome result (λ most. length (all_tuples classes.now.rows generic.now) ≤ most) }
{
    let mut most: u64 = 1;
    for argument in 0..generic.required {
        let groups = most_groups(generic, argument as usize, classes, below)?;
        most = most.checked_mul(groups)?;
    }
    Some(most)
}

// No fewer than the combinations of classes below those of a method.
fn most_places(method: &MethodRow, _classes: &Classes, below: &ClassCounts) -> Option<u64>
    requires { AreBelow _classes.now.rows below.now }
    ensures { IfSome result (λ most. places _classes.now.rows method.now.classes ≤ most) }
{
    let mut most: u64 = 1;
    for class in method.classes.as_slice() {
        most = most.checked_mul(*below.get(*class)?)?;
    }
    Some(most)
}

// No fewer than the methods of all chains.
fn most_chains(generic: &GenericRow, classes: &Classes, below: &ClassCounts) -> Option<u64>
    requires { AreBelow classes.now.rows below.now }
    ensures { IfSome result (λ most. sum_by (λ m. places classes.now.rows m.classes) generic.now.methods ≤ most) }
{
    let mut most: u64 = 0;
    for method in generic.methods.as_slice() {
        most = most.checked_add(most_places(method, classes, below)?)?;
    }
    Some(most)
}

// No fewer than the cells of a generic function.
fn most_generic_cells(generic: &GenericRow, classes: &Classes, below: &ClassCounts) -> Option<u64>
    requires { AreBelow classes.now.rows below.now }
    ensures { IfSome result (λ most. generic_cells (with_classes classes.now.rows) generic.now ≤ most) }
{
    let maps = (classes.rows().len() as u64).checked_mul(specialised_arguments(generic))?;
    let tuples = most_tuples(generic, classes, below)?;
    let chains = most_chains(generic, classes, below)?;
    maps.checked_add(tuples)?.checked_add(chains)
}

// No fewer than the cells of all dispatch tables.
fn most_cells(tables: &Tables, below: &ClassCounts) -> Option<u64>
    requires { AreBelow tables.now.classes.rows below.now }
    ensures { IfSome result (λ most. cells_of tables.now ≤ most) }
{
    let rows = tables.generics.rows();
    let mut most: u64 = 0;
    for at in 0..rows.len() {
        let Some(generic) = rows.get(at) else {
            unreachable!()
        };
        most = most.checked_add(most_generic_cells(generic, &tables.classes, below)?)?;
    }
    Some(most)
}

// Whether it is quickly told that the cells are few.
fn are_surely_few(alloc: Global, tables: &Tables) -> Result<bool, NoMemory>
    ensures { IfOk result (λ few. few ≡ true → cells_of tables.now ≤ most_cells) }
{
    match below_counts(alloc, &tables.classes)? {
        Some(below) => Ok(are_few(tables, &below)),
        None => Ok(false),
    }
}

// The same, where it is known how many classes stand below each.
fn are_few(tables: &Tables, below: &ClassCounts) -> bool
    requires { AreBelow tables.now.classes.rows below.now }
    ensures { result ≡ true → cells_of tables.now ≤ most_cells }
{
    match most_cells(tables, below) {
        Some(most) => most <= MOST_CELLS,
        None => false,
    }
}

/// Whether it is quickly told that the dispatch tables have no more cells than they may, where they had not at the mark: a form has defined nothing since,
/// or a bound that is no less than them is within the limit.
pub(crate) fn are_told_few(alloc: Global, tables: &Tables, mark: &Mark) -> Result<bool, NoMemory>
    requires few { FewAt mark.now tables.now }
    ensures { IfOk result (λ few. few ≡ true → cells_of tables.now ≤ most_cells) }
{
    if defines_nothing(alloc, tables, mark)? {
        return Ok(true);
    }
    are_surely_few(alloc, tables)
}
