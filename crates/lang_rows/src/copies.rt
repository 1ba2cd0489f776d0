// The rows of a program that hold no forms, copied.

ghost use Rattle.std.specs.Prelude.{◌≡◌, IfOk};

use base::{Name, NameList, NoMemory, PlaceList};
use lang_meaning::{
    ClassIds, ClassRow, ClassRows, FunctionRows, GenericRow, GenericRows, LiteralRow, LiteralRows,
    MethodRow, MethodRows, SlotRow, SlotRows,
};
use std::alloc::Global;

/// The same literals.
pub fn literals(alloc: Global, list: &LiteralRows) -> Result<LiteralRows, NoMemory>
    ensures { IfOk result (λ copy. copy ≡ list.now) }
{
    let mut copied = LiteralRows::new(alloc);
    for row in list.as_slice() {
        copied.push(literal(alloc, row)?)?;
    }
    Ok(copied)
}

fn literal(alloc: Global, row: &LiteralRow) -> Result<LiteralRow, NoMemory>
    ensures { IfOk result (λ copy. copy ≡ row.now) }
{
    match row {
        LiteralRow::Datum(datum) => Ok(LiteralRow::Datum(datum.copy(alloc)?)),
        LiteralRow::Class(class) => Ok(LiteralRow::Class(*class)),
        LiteralRow::Function(name) => Ok(LiteralRow::Function(*name)),
    }
}

/// The same classes.
pub fn classes(alloc: Global, list: &ClassRows) -> Result<ClassRows, NoMemory>
    ensures { IfOk result (λ copy. copy ≡ list.now) }
{
    let mut copied = ClassRows::new(alloc);
    for row in list.as_slice() {
        copied.push(class(alloc, row)?)?;
    }
    Ok(copied)
}

fn class(alloc: Global, row: &ClassRow) -> Result<ClassRow, NoMemory>
    ensures { IfOk result (λ copy. copy ≡ row.now) }
{
    let precedence = class_ids(alloc, &row.precedence)?;
    let slots = slots(alloc, &row.slots)?;
    Ok(ClassRow {
        name: row.name,
        precedence,
        slots,
        abstract_class: row.abstract_class,
    })
}

fn slots(alloc: Global, list: &SlotRows) -> Result<SlotRows, NoMemory>
    ensures { IfOk result (λ copy. copy ≡ list.now) }
{
    let mut copied = SlotRows::new(alloc);
    for row in list.as_slice() {
        let initargs = names(alloc, &row.initargs)?;
        copied.push(SlotRow {
            name: row.name,
            initargs,
            initform: row.initform,
        })?;
    }
    Ok(copied)
}

/// The same generic functions.
pub fn generics(alloc: Global, list: &GenericRows) -> Result<GenericRows, NoMemory>
    ensures { IfOk result (λ copy. copy ≡ list.now) }
{
    let mut copied = GenericRows::new(alloc);
    for row in list.as_slice() {
        let methods = methods(alloc, &row.methods)?;
        copied.push(GenericRow {
            name: row.name,
            required: row.required,
            rest: row.rest,
            methods,
        })?;
    }
    Ok(copied)
}

fn methods(alloc: Global, list: &MethodRows) -> Result<MethodRows, NoMemory>
    ensures { IfOk result (λ copy. copy ≡ list.now) }
{
    let mut copied = MethodRows::new(alloc);
    for row in list.as_slice() {
        let classes = class_ids(alloc, &row.classes)?;
        copied.push(MethodRow {
            qualifier: row.qualifier,
            classes,
            procedure: row.procedure,
        })?;
    }
    Ok(copied)
}

/// The same functions.
pub fn functions(alloc: Global, list: &FunctionRows) -> Result<FunctionRows, NoMemory>
    ensures { IfOk result (λ copy. copy ≡ list.now) }
{
    let mut copied = FunctionRows::new(alloc);
    for row in list.as_slice() {
        copied.push(*row)?;
    }
    Ok(copied)
}

/// The same sites.
pub fn sites(alloc: Global, list: &PlaceList) -> Result<PlaceList, NoMemory>
    ensures { IfOk result (λ copy. copy ≡ list.now) }
{
    let mut copied = PlaceList::new(alloc);
    for place in list.as_slice() {
        copied.push(*place)?;
    }
    Ok(copied)
}

fn class_ids(alloc: Global, list: &ClassIds) -> Result<ClassIds, NoMemory>
    ensures { IfOk result (λ copy. copy ≡ list.now) }
{
    let mut copied = ClassIds::new(alloc);
    for id in list.as_slice() {
        copied.push(*id)?;
    }
    Ok(copied)
}

fn names(alloc: Global, list: &NameList) -> Result<NameList, NoMemory>
    ensures { IfOk result (λ copy. copy ≡ list.now) }
{
    let mut copied = NameList::new(alloc);
    for name in list.as_slice() {
        copied.push(*name)?;
    }
    Ok(copied)
}
