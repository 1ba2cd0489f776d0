// A program that has the built-in classes and nothing else.

use base::{ItemList, Names, PlaceList};
use lang_classes::Classes;
use lang_meaning::{
    ClassRow, ClassRows, CoreList, FunctionRows, GenericRows, LiteralRows, ProcedureList,
    ProgramRows, SlotRow, SlotRows,
};
use test_rows::RowAnswer;

/// The rows of that program, with the names of its classes put into the table of names.
pub fn no_rows(got: &mut RowAnswer, names: &mut Names) -> Option<ProgramRows> {
    let alloc = got.alloc;
    let classes = built_in(got, names)?;
    Some(ProgramRows {
        literals: LiteralRows::new(alloc),
        procedures: ProcedureList::new(alloc),
        classes,
        generics: GenericRows::new(alloc),
        functions: FunctionRows::new(alloc),
        main: CoreList::new(alloc),
        sites: PlaceList::new(alloc),
    })
}

fn built_in(got: &mut RowAnswer, names: &mut Names) -> Option<ClassRows> {
    let classes = got.kept(Classes::builtin(got.alloc, names))?;
    let mut rows = ClassRows::new(got.alloc);
    for row in classes.rows().as_slice() {
        let copy = ClassRow {
            name: row.name,
            precedence: copied(got, row.precedence.as_slice()),
            slots: slot_rows(got, row.slots.as_slice()),
            abstract_class: row.abstract_class,
        };
        got.add(&mut rows, copy);
    }
    drop(classes);
    Some(rows)
}

fn slot_rows(got: &mut RowAnswer, slots: &[SlotRow]) -> SlotRows {
    let mut rows = SlotRows::new(got.alloc);
    for slot in slots {
        let copy = SlotRow {
            name: slot.name,
            initargs: copied(got, slot.initargs.as_slice()),
            initform: slot.initform,
        };
        got.add(&mut rows, copy);
    }
    rows
}

fn copied<T: Copy + Drop>(got: &mut RowAnswer, items: &[T]) -> ItemList<T> {
    let mut copies = ItemList::new(got.alloc);
    for item in items {
        got.add(&mut copies, *item);
    }
    copies
}
