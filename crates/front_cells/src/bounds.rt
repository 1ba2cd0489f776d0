// No fewer than the cells of a generic function, told without its tuples.

ghost use Rattle.std.specs.Prelude.{◌≡◌, ◌≤◌, ◌<◌, ◌+◌, ◌*◌, [], length, filter, IfOk, IfSome, OnOk};
ghost use Rattle.std.specs.List.{range_with_len, sum_by, list_any};
ghost use Rattle.lang_meaning.specs.Classes.{is_qualifier};
ghost use Rattle.lang_meaning.specs.Cells.{argument_classes, is_specialised, generic_cells};
ghost use Rattle.lang_dispatch.specs.OfClasses.{with_classes};
ghost use Rattle.front_cells.specs.Flags.{AreFlags};
ghost use Rattle.front_cells.specs.Groups.{AreGroupCounts};
ghost use Rattle.front_cells.specs.Tuples.{AreTupleCounts, AreOnes, AreScaled, IsScaled, is_special_at, chained};

use crate::flags::{ClassFlags, class_at};
use crate::groups::{ClassCounts, GroupCounts, count_groups};
use base::{ItemList, NoMemory};
use lang_meaning::{ClassRows, GenericRow, MethodRow, Qualifier};
use std::alloc::Global;

/// For each method a number, in the order of methods.
pub(crate) type MethodCounts = ItemList<u64>;

/// No fewer than the tuples of groups of some arguments, and for each method no fewer than those that it applies to.
#[derive(Drop)]
pub(crate) struct TupleCounts {
    pub(crate) tuples: u64,
    pub(crate) applied: MethodCounts,
}

// Whether that of some method is another than `<object>`.
fn is_specialised(generic: &GenericRow, argument: usize) -> bool
    ensures { result ≡ is_special_at generic.now argument }
{
    for method in generic.methods.as_slice() {
        if class_at(method, argument) != 0 {
            return true;
        }
    }
    false
}

/// No fewer than the arguments of which that is so.
pub(crate) fn specialised_arguments(generic: &GenericRow) -> u64
    ensures { length (filter (is_specialised generic.now) (range_with_len 0 generic.now.required)) ≤ result }
{
    let mut count: u64 = 0;
    for argument in 0..generic.required {
        if is_specialised(generic, argument as usize) {
            count += 1;
        }
    }
    count
}

// One for each method.
#[tactic(auto, using(crate::proofs::Tupling::no_ones, crate::proofs::Tupling::ones_more))]
fn ones(alloc: Global, count: usize) -> Result<MethodCounts, NoMemory>
    ensures { IfOk result (λ counts. AreOnes count counts) }
{
    let mut ones = ItemList::new(alloc);
    for _method in 0..count {
        ones.push(1)?;
    }
    Ok(ones)
}

// The number of a method with an argument more.
fn scaled(method: &MethodRow, argument: usize, below: &ClassCounts, applied: u64) -> Option<u64>
    ensures { IfSome result (λ more. IsScaled method.now.classes argument below.now applied more) }
{
    match method.classes.get(argument) {
        Some(class) => applied.checked_mul(*below.get(*class)?),
        None => Some(applied),
    }
}

// The numbers of all methods with an argument more; none where 64 bits do not tell.
fn scaled_all(
    alloc: Global,
    generic: &GenericRow,
    argument: usize,
    below: &ClassCounts,
    applied: &MethodCounts,
) -> Result<Option<MethodCounts>, NoMemory>
    ensures { IfOk result (λ o. IfSome o (λ more. AreScaled generic.now.methods argument below.now applied.now more)) }
{
    let mut more = ItemList::new(alloc);
    for at in 0..generic.methods.len() {
        let Some(method) = generic.methods.get(at) else {
            unreachable!()
        };
        let Some(count) = applied.get(at) else {
            return Ok(None);
        };
        let Some(next) = scaled(method, argument, below, *count) else {
            return Ok(None);
        };
        more.push(next)?;
    }
    Ok(Some(more))
}

// The tuples of an argument more, where its groups are counted.
fn with_argument(
    alloc: Global,
    _classes: &ClassRows,
    generic: &GenericRow,
    argument: usize,
    counts: &TupleCounts,
    groups: &GroupCounts,
) -> Result<Option<TupleCounts>, NoMemory>
    requires there { argument < generic.now.required }
    requires counts { AreTupleCounts _classes.now generic.now argument counts.now }
    requires groups { AreGroupCounts _classes.now (argument_classes generic.now argument) groups.now }
    ensures { IfOk result (λ o. IfSome o (λ counts. AreTupleCounts _classes.now generic.now (argument + 1) counts)) }
{
    let Some(tuples) = counts.tuples.checked_mul(groups.groups) else {
        return Ok(None);
    };
    let Some(applied) = scaled_all(alloc, generic, argument, &groups.below, &counts.applied)? else {
        return Ok(None);
    };
    Ok(Some(TupleCounts { tuples, applied }))
}

// The tuples of all arguments, where no flag is set, and none is then; none where 64 bits do not tell.
fn count_tuples(
    alloc: Global,
    classes: &ClassRows,
    flags: &mut ClassFlags,
    generic: &GenericRow,
) -> Result<Option<TupleCounts>, NoMemory>
    requires { AreFlags [] flags.old }
    ensures counted { IfOk result (λ o. IfSome o
        (λ counts. AreTupleCounts classes.now generic.now generic.now.required counts)) }
    ensures cleared { OnOk result (AreFlags [] flags.new) }
{
    let mut counts = TupleCounts {
        tuples: 1,
        applied: ones(alloc, generic.methods.len())?,
    };
    for argument in 0..generic.required {
        let at = argument as usize;
        let Some(groups) = count_groups(alloc, classes, flags, generic, at)? else {
            return Ok(None);
        };
        let Some(more) = with_argument(alloc, classes, generic, at, &counts, &groups)? else {
            return Ok(None);
        };
        counts = more;
    }
    Ok(Some(counts))
}

fn is_primary(kind: Qualifier) -> bool
    ensures { result ≡ is_qualifier Qualifier.Primary kind }
{
    match kind {
        Qualifier::Primary => true,
        Qualifier::Around | Qualifier::Before | Qualifier::After => false,
    }
}

// Whether there is a primary method: without one there is no chain.
fn has_primary(generic: &GenericRow) -> bool
    ensures { result ≡ list_any (λ m. is_qualifier Qualifier.Primary m.qualifier) generic.now.methods }
{
    for method in generic.methods.as_slice() {
        if is_primary(method.qualifier) {
            return true;
        }
    }
    false
}

// The sum of the numbers.
fn total(counts: &MethodCounts) -> Option<u64>
    ensures { IfSome result (λ sum. sum_by (λ count. count) counts.now ≤ sum) }
{
    let mut sum: u64 = 0;
    for count in counts.as_slice() {
        sum = sum.checked_add(*count)?;
    }
    Some(sum)
}

// No fewer than the methods of all chains.
fn most_chained(_classes: &ClassRows, generic: &GenericRow, counts: &TupleCounts) -> Option<u64>
    requires { AreTupleCounts _classes.now generic.now generic.now.required counts.now }
    ensures { IfSome result (λ most. chained _classes.now generic.now ≤ most) }
{
    if has_primary(generic) {
        total(&counts.applied)
    } else {
        Some(0)
    }
}

// The same with the tuples and so many cells besides.
fn with_tuples(
    maps: u64,
    _classes: &ClassRows,
    generic: &GenericRow,
    counts: &TupleCounts,
) -> Option<u64>
    requires maps { length _classes.now
        * length (filter (is_specialised generic.now) (range_with_len 0 generic.now.required)) ≤ maps }
    requires counts { AreTupleCounts _classes.now generic.now generic.now.required counts.now }
    ensures { IfSome result (λ most. generic_cells (with_classes _classes.now) generic.now ≤ most) }
{
    let chained = most_chained(_classes, generic, counts)?;
    maps.checked_add(counts.tuples)?.checked_add(chained)
}

/// No fewer than the cells of a generic function, where no flag is set, and none is then; none where 64 bits do not
/// tell. So many they are where all classes have one superclass, and each tuple that a method applies to has a primary
/// method.
pub(crate) fn most_cells(
    alloc: Global,
    classes: &ClassRows,
    flags: &mut ClassFlags,
    generic: &GenericRow,
) -> Result<Option<u64>, NoMemory>
    requires { AreFlags [] flags.old }
    ensures counted { IfOk result (λ o. IfSome o
        (λ most. generic_cells (with_classes classes.now) generic.now ≤ most)) }
    ensures cleared { OnOk result (AreFlags [] flags.new) }
{
    let Some(counts) = count_tuples(alloc, classes, flags, generic)? else {
        return Ok(None);
    };
    let Some(maps) = (classes.len() as u64).checked_mul(specialised_arguments(generic)) else {
        return Ok(None);
    };
    Ok(with_tuples(maps, classes, generic, &counts))
}
