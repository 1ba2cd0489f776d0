// The cells of dispatch tables, counted without the tables.

ghost use Rattle.std.specs.Prelude.{◌≡◌, ◌+◌, ◌<◌, ◌^◌, IfOk, length, map, filter, min};
ghost use Rattle.std.specs.List.{range_with_len, sum_by};
ghost use Rattle.lang_meaning.specs.Cells.{groups, is_specialised, tuples, tuple_cells, generic_cells};
ghost use Rattle.lang_dispatch.specs.OfClasses.{with_classes};
ghost use Rattle.lang_dispatch.specs.Suffixes.{rest_cells};

use crate::groups::argument_groups;
use crate::passing::{ended_count, passing};
use crate::tuples::tuple_count;
use base::{ItemList, NoMemory};
use lang_meaning::{ClassIds, ClassRows, GenericRow, GenericRows, MethodRows};
use std::alloc::Global;

/// One more than the most cells that a program may have.
pub const CELLS_LIMIT: u64 = 262145;

/// The cells of these generic functions with these classes: for each specialised argument one for
/// each class, and for each tuple of groups one and the length of its chain. 262,145 where that is
/// more; what is past it is not counted.
pub fn cells(alloc: Global, generics: &GenericRows, classes: &ClassRows) -> Result<u64, NoMemory>
    ensures { IfOk result
        (λ n. n ≡ min (sum_by (generic_cells (with_classes classes.now)) generics.now) 262145) }
{
    let mut sum: u64 = 0;
    for generic in generics.as_slice() {
        sum = capped_sum(sum, generic_cells(alloc, generic, classes)?);
        if sum == CELLS_LIMIT {
            return Ok(sum);
        }
    }
    Ok(sum)
}

/// The cells of one generic function, by the same rule.
pub fn generic_cells(
    alloc: Global,
    generic: &GenericRow,
    classes: &ClassRows,
) -> Result<u64, NoMemory>
    ensures { IfOk result
        (λ n. n ≡ min (generic_cells (with_classes classes.now) generic.now) 262145) }
{
    let groups = generic_groups(alloc, generic, classes)?;
    let maps = (classes.len() as u64).saturating_mul(groups.specialised as u64);
    let tuples = tuples_cells(alloc, generic, classes, &groups.lists)?;
    Ok(capped_sum(maps, tuples))
}

// The groups of a generic function: the first classes at each argument, and how many of its
// arguments are specialised.
#[derive(Drop)]
struct GenericGroups {
    lists: ItemList<ClassIds>,
    specialised: u32,
}

fn generic_groups(
    alloc: Global,
    generic: &GenericRow,
    classes: &ClassRows,
) -> Result<GenericGroups, NoMemory>
    ensures lists { IfOk result (λ found. found.lists
        ≡ map (groups (with_classes classes.now) generic.now) (range_with_len 0 generic.now.required)) }
    ensures specialised { IfOk result (λ found. found.specialised
        ≡ length (filter (is_specialised generic.now) (range_with_len 0 generic.now.required))) }
{
    let mut lists = ItemList::new(alloc);
    let mut specialised: u32 = 0;
    for argument in 0..generic.required {
        let groups = argument_groups(alloc, generic, argument as usize, classes)?;
        if groups.specialised {
            specialised += 1;
        }
        lists.push(groups.firsts)?;
    }
    Ok(GenericGroups { lists, specialised })
}

// The cells of the tuples.
fn tuples_cells(
    alloc: Global,
    generic: &GenericRow,
    classes: &ClassRows,
    lists: &ItemList<ClassIds>,
) -> Result<u64, NoMemory>
    ensures { IfOk result (λ n. n
        ≡ min (sum_by (tuple_cells (with_classes classes.now) generic.now) (tuples lists.now)) 262145) }
{
    if tuple_count(lists) as u64 >= CELLS_LIMIT {
        return Ok(CELLS_LIMIT);
    }
    suffix_cells(alloc, classes, &generic.methods, 0, lists.as_slice())
}

// The cells of the tuples of these lists, which begin at that argument, where the methods are those
// that fit all arguments in front.
fn suffix_cells(
    alloc: Global,
    classes: &ClassRows,
    methods: &MethodRows,
    argument: usize,
    lists: &[ClassIds],
) -> Result<u64, NoMemory>
    requires { argument + length lists.now < 2 ^ 64 }
    ensures { IfOk result (λ n. n
        ≡ min (sum_by (rest_cells (with_classes classes.now) argument methods.now) (tuples lists.now)) 262145) }
{
    let [firsts, rest @ ..] = lists else {
        return Ok(capped_sum(1, ended_count(methods, argument) as u64));
    };
    let mut sum: u64 = 0;
    for at in 0..firsts.len() {
        let Some(class) = firsts.get(at) else {
            unreachable!()
        };
        let few = passing(alloc, classes, methods, argument, *class)?;
        let more = suffix_cells(alloc, classes, &few, argument + 1, rest)?;
        sum = capped_sum(sum, more);
        if sum == CELLS_LIMIT {
            return Ok(sum);
        }
    }
    Ok(sum)
}

// The sum up to the limit.
fn capped_sum(a: u64, b: u64) -> u64
    ensures { result ≡ min (a + b) 262145 }
{
    a.saturating_add(b).min(CELLS_LIMIT)
}
