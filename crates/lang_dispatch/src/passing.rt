// Which methods still fit, one argument of a tuple after the other.

ghost use Rattle.std.specs.Prelude.{◌≡◌, IfOk, filter, length, nat_le};
ghost use Rattle.lang_dispatch.specs.OfClasses.{with_classes};
ghost use Rattle.lang_dispatch.specs.Suffixes.{chain_size, passes};

use crate::applying::{is_below, primary_count};
use base::NoMemory;
use lang_meaning::{ClassId, ClassIds, ClassRows, MethodRow, MethodRows};
use std::alloc::Global;

/// The methods whose class at that argument is this one or above it.
pub(crate) fn passing(
    alloc: Global,
    classes: &ClassRows,
    methods: &MethodRows,
    argument: usize,
    class: ClassId,
) -> Result<MethodRows, NoMemory>
    ensures { IfOk result (λ few. few ≡ filter (passes (with_classes classes.now) argument class) methods.now) }
{
    let mut few = MethodRows::new(alloc);
    for method in methods.as_slice() {
        if passes(classes, method, argument, class) {
            few.push(copied(alloc, method)?)?;
        }
    }
    Ok(few)
}

fn passes(classes: &ClassRows, method: &MethodRow, argument: usize, class: ClassId) -> bool
    ensures { result ≡ passes (with_classes classes.now) argument class method.now }
{
    match method.classes.get(argument) {
        Some(above) => is_below(classes, class, *above),
        None => false,
    }
}

fn copied(alloc: Global, method: &MethodRow) -> Result<MethodRow, NoMemory>
    ensures { IfOk result (λ copy. copy ≡ method.now) }
{
    Ok(MethodRow {
        qualifier: method.qualifier,
        classes: copied_ids(alloc, &method.classes)?,
        procedure: method.procedure,
    })
}

fn copied_ids(alloc: Global, list: &ClassIds) -> Result<ClassIds, NoMemory>
    ensures { IfOk result (λ copy. copy ≡ list.now) }
{
    let mut copy = ClassIds::new(alloc);
    for class in list.as_slice() {
        copy.push(*class)?;
    }
    Ok(copy)
}

/// How many methods the chain of those has that have no class from that argument on.
pub(crate) fn ended_count(methods: &MethodRows, argument: usize) -> usize
    ensures { result ≡ chain_size (filter (λ m. nat_le (length m.classes) argument) methods.now) }
{
    let mut found: usize = 0;
    let mut primary: usize = 0;
    for method in methods.as_slice() {
        if method.classes.len() <= argument {
            found += 1;
            primary += primary_count(method.qualifier);
        }
    }
    if primary == 0 { 0 } else { found }
}
