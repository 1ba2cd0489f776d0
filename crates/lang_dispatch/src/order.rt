// The methods that apply to a tuple of classes, the most specific one first.

ghost use Rattle.std.specs.Prelude.{◌≡◌, ◌==◌, ◌≤◌, ◌+◌, List, IfOk, MatchOption, length, nat_lt};
ghost use Rattle.std.specs.List.{position_or_len};
ghost use Rattle.lang_meaning.specs.Classes.{precedence, more_specific, applicable};
ghost use Rattle.lang_dispatch.specs.OfClasses.{with_classes};
ghost use Rattle.lang_meaning.specs.declared.program.MethodRow.{MethodRow};
ghost use Rattle.lang_dispatch.specs.Chains.{ArePicked, more_specific_from};

use crate::applying::applies;
use base::NoMemory;
use lang_meaning::{ClassId, ClassIds, ClassRows, GenericRow, MethodRow};
use std::alloc::Global;

/// The numbers of the methods that apply, in the order of their specificity.
pub fn applicable(
    alloc: Global,
    generic: &GenericRow,
    classes: &ClassRows,
    tuple: &ClassIds,
) -> Result<Vec<usize>, NoMemory>
    ensures { IfOk result (λ order. ArePicked generic.now.methods order.items
        (applicable (with_classes classes.now) tuple.now generic.now.methods)) }
{
    let mut order = Vec::new(alloc);
    let count = generic.methods.len();
    for step in 0..count {
        let at = count - 1 - step;
        let Some(method) = generic.methods.get(at) else {
            unreachable!()
        };
        if applies(classes, tuple, &method.classes) {
            let place = place_for(generic, classes, tuple, &order, method);
            let Ok(()) = order.insert(place, at) else {
                return Err(NoMemory);
            };
        }
    }
    Ok(order)
}

// The place of the first method that is less specific than this one.
fn place_for(
    generic: &GenericRow,
    classes: &ClassRows,
    tuple: &ClassIds,
    order: &Vec<usize>,
    method: &MethodRow,
) -> usize
    ensures within { result ≤ length order.now.items }
    ensures place { (picked : List MethodRow)
        → ArePicked generic.now.methods order.now.items picked
        → result ≡ position_or_len (λ n. more_specific (with_classes classes.now) tuple.now
        method.now.classes n.classes) picked }
{
    for at in 0..order.len() {
        let Some(number) = order.get(at) else {
            unreachable!()
        };
        let Some(other) = generic.methods.get(*number) else {
            return at;
        };
        if is_more_specific(classes, tuple, &method.classes, &other.classes) {
            return at;
        }
    }
    order.len()
}

// Whether a method of these classes is more specific than one of the others: the first argument
// that decides does.
fn is_more_specific(
    classes: &ClassRows,
    tuple: &ClassIds,
    method: &ClassIds,
    other: &ClassIds,
) -> bool
    ensures { result
        ≡ more_specific (with_classes classes.now) tuple.now method.now other.now }
{
    for at in 0..tuple.len() {
        if let Some(answer) = decision_at(classes, tuple, method, other, at) {
            return answer;
        }
    }
    false
}

// What the argument at that place decides: nothing where the classes of both methods are the same
// there, and else whether the first one's stands earlier above the argument's class.
fn decision_at(
    classes: &ClassRows,
    tuple: &ClassIds,
    method: &ClassIds,
    other: &ClassIds,
    at: usize,
) -> Option<bool>
    ensures { MatchOption result
        (more_specific_from classes.now at tuple.now method.now other.now
        ≡ more_specific_from classes.now (at + 1) tuple.now method.now other.now)
        (λ answer. more_specific_from classes.now at tuple.now method.now other.now ≡ answer) }
{
    let Some(class) = tuple.get(at) else {
        return Some(false);
    };
    let Some(first) = method.get(at) else {
        return Some(false);
    };
    let Some(second) = other.get(at) else {
        return Some(false);
    };
    if *first == *second {
        return None;
    }
    Some(stands_earlier(classes, *class, *first, *second))
}

// Whether one class stands earlier than another in the precedence list of a third.
fn stands_earlier(classes: &ClassRows, class: ClassId, first: ClassId, second: ClassId) -> bool
    ensures { result
        ≡ nat_lt (position_or_len (λ d. d == first) (precedence (with_classes classes.now) class))
        (position_or_len (λ d. d == second) (precedence (with_classes classes.now) class)) }
{
    place_above(classes, class, first) < place_above(classes, class, second)
}

// The place of a class in the precedence list of another.
fn place_above(classes: &ClassRows, class: ClassId, above: ClassId) -> usize
    ensures { result
        ≡ position_or_len (λ d. d == above) (precedence (with_classes classes.now) class) }
{
    match classes.get(class) {
        Some(row) => place_of(&row.precedence, above),
        None => 0,
    }
}

fn place_of(list: &ClassIds, wanted: ClassId) -> usize
    ensures { result ≡ position_or_len (λ d. d == wanted) list.now }
{
    for (at, class) in list.as_slice().iter().enumerate() {
        if *class == wanted {
            return at;
        }
    }
    list.len()
}
