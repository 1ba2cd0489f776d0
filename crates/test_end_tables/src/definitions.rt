// Classes, generic functions and functions of programs, as rows write them.

use crate::forms::put_named;
use base::Names;
use lang_meaning::{
    BUILT_IN_CLASSES, Callee, ClassRow, FunctionRow, GenericRow, MethodRow, ProgramRows, Qualifier,
    SlotRow,
};
use test_rows::RowAnswer;

/// Appends what a program defines, each behind `;`: its classes but for the built-in ones, its generic functions, and its functions.
pub fn put_definitions(got: &mut RowAnswer, names: &Names, rows: &ProgramRows) -> Option<()> {
    for class in rows.classes.as_slice().get(BUILT_IN_CLASSES..)? {
        got.put(" ; ");
        put_class(got, names, class)?;
    }
    for generic in rows.generics.as_slice() {
        got.put(" ; ");
        put_generic(got, names, generic)?;
    }
    for function in rows.functions.as_slice() {
        got.put(" ; ");
        put_function(got, names, function)?;
    }
    Some(())
}

// Appends a class: its name, its precedence list, its slots, and whether it is abstract.
fn put_class(got: &mut RowAnswer, names: &Names, class: &ClassRow) -> Option<()> {
    put_named(got, names, "(class ", class.name)?;
    got.put(" ");
    got.put_list(class.precedence.as_slice());
    for slot in class.slots.as_slice() {
        put_slot(got, names, slot)?;
    }
    got.put(if class.abstract_class {
        " abstract)"
    } else {
        ")"
    });
    Some(())
}

// Appends a slot: its name, the names that give it a value, and the procedure that does otherwise.
fn put_slot(got: &mut RowAnswer, names: &Names, slot: &SlotRow) -> Option<()> {
    put_named(got, names, " (", slot.name)?;
    for name in slot.initargs.as_slice() {
        put_named(got, names, " ", *name)?;
    }
    if let Some(procedure) = slot.initform {
        got.put(" p");
        got.put(procedure);
    }
    got.put(")");
    Some(())
}

// Appends a generic function: its name, how many arguments it requires, `&` where it takes more, and its methods.
fn put_generic(got: &mut RowAnswer, names: &Names, generic: &GenericRow) -> Option<()> {
    put_named(got, names, "(generic ", generic.name)?;
    got.put(" ");
    got.put(generic.required);
    got.put(if generic.rest { " &" } else { "" });
    for method in generic.methods.as_slice() {
        put_method(got, method);
    }
    got.put(")");
    Some(())
}

// Appends a method: its qualifier, its classes and its procedure.
fn put_method(got: &mut RowAnswer, method: &MethodRow) {
    got.put(" (");
    got.put(qualifier_text(method.qualifier));
    got.put_list(method.classes.as_slice());
    got.put(" p");
    got.put(method.procedure);
    got.put(")");
}

// The word for a qualifier, with a blank behind it; none for a method without one.
fn qualifier_text(qualifier: Qualifier) -> &'static str {
    match qualifier {
        Qualifier::Primary => "",
        Qualifier::Around => "around ",
        Qualifier::Before => "before ",
        Qualifier::After => "after ",
    }
}

// Appends a name, and the procedure or the generic function that it calls.
fn put_function(got: &mut RowAnswer, names: &Names, function: &FunctionRow) -> Option<()> {
    put_named(got, names, "(function ", function.name)?;
    match function.callee {
        Callee::Procedure(procedure) => {
            got.put(" p");
            got.put(procedure);
        }
        Callee::Generic(generic) => {
            got.put(" g");
            got.put(generic);
        }
    }
    got.put(")");
    Some(())
}
