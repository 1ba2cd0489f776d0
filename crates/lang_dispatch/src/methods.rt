// Which methods a generic function takes.

ghost use Rattle.std.specs.Prelude.{◌≡◌, ◌<◌, ◌≤◌, length, OnOk, OnErr};
ghost use Rattle.std.specs.List.{list_any};
ghost use Rattle.std.specs.Str.{bytes_eq};
ghost use Rattle.lang_meaning.specs.Classes.{is_qualifier};
ghost use Rattle.lang_dispatch.specs.Methods.{takes, is_same, with_method, methods_at, with_first_methods};

use base::{ItemList, Name, NoMemory};
use lang_meaning::{
    ClassIds, GenericId, GenericRow, GenericRows, MethodRow, MethodRows, Qualifier,
};
use std::alloc::Global;

// Whether the method is congruent, and not there already.
pub fn takes(row: &GenericRow, rest: bool, method: &MethodRow) -> bool
    ensures { result ≡ takes row.now rest method.now }
{
    method.classes.len() == row.required as usize
        && rest == row.rest
        && !is_among(&row.methods, method)
}

// Whether one of the methods has the same qualifier and classes.
fn is_among(methods: &MethodRows, method: &MethodRow) -> bool
    ensures { result ≡ list_any (is_same method.now) methods.now }
{
    for other in methods.as_slice() {
        if is_same(method, other) {
            return true;
        }
    }
    false
}

// Whether both have the same qualifier and classes.
fn is_same(method: &MethodRow, other: &MethodRow) -> bool
    ensures { result ≡ is_same method.now other.now }
{
    is_qualifier(method.qualifier, other.qualifier) && same_classes(&method.classes, &other.classes)
}

/// Whether both are the same qualifier.
pub fn is_qualifier(kind: Qualifier, other: Qualifier) -> bool
    ensures { result ≡ is_qualifier kind other }
{
    match (kind, other) {
        (Qualifier::Primary, Qualifier::Primary)
        | (Qualifier::Around, Qualifier::Around)
        | (Qualifier::Before, Qualifier::Before)
        | (Qualifier::After, Qualifier::After) => true,
        _ => false,
    }
}

// Whether both are the same classes.
fn same_classes(classes: &ClassIds, others: &ClassIds) -> bool
    ensures { result ≡ bytes_eq classes.now others.now }
{
    classes.as_slice() == others.as_slice()
}

// Puts the method at the end of the row's methods; unchanged after `NoMemory`.
pub fn push_method(
    alloc: Global,
    rows: &mut GenericRows,
    generic: GenericId,
    method: MethodRow,
) -> Result<(), NoMemory>
    requires { generic < length rows.old }
    ensures ok { OnOk result (rows.new ≡ with_method rows.old generic method) }
    ensures err { OnErr result (rows.new ≡ rows.old) }
{
    let Some(row) = rows.get(generic) else {
        unreachable!()
    };
    let empty = empty_row(alloc, row.name);
    let mut row = rows.replace(generic, empty);
    let outcome = row.methods.push(method);
    rows.replace(generic, row);
    outcome
}

/// The generic function keeps its first `len` methods; takes no memory.
pub fn cut_methods(alloc: Global, rows: &mut GenericRows, generic: GenericId, len: usize)
    requires there { generic < length rows.old }
    requires enough { len ≤ length (methods_at rows.old generic) }
    ensures { rows.new ≡ with_first_methods rows.old generic len }
{
    let Some(row) = rows.get(generic) else {
        unreachable!()
    };
    let empty = empty_row(alloc, row.name);
    let mut row = rows.replace(generic, empty);
    row.methods.cut(len);
    rows.replace(generic, row);
}

// What stands in a row's place while the row is changed.
fn empty_row(alloc: Global, name: Name) -> GenericRow {
    GenericRow {
        name,
        required: 0,
        rest: false,
        methods: ItemList::new(alloc),
    }
}
