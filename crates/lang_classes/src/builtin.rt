// The built-in classes (ISO/IEC 13816:2007, 29.3), one after the other.

ghost use Rattle.std.specs.Prelude.{◌≡◌, ℕ, List, ◌+◌, ◌<◌, ◌≤◌, ◌++◌, [], ◌∷◌, Some, None, false, length, slice_get, OnOk, IfOk};
ghost use Rattle.base.specs.Names.{Extends};
ghost use Rattle.lang_meaning.specs.BuiltIn.{built_in_precedence, class_texts};
ghost use Rattle.lang_classes.specs.InheritedBuiltIn.{SaysSlots, built_in_own};
ghost use Rattle.lang_classes.specs.FirstClasses.{AreFirst, AreSlotsOf};

use crate::row::row_of;
use crate::slots::said_by;
use crate::table::ClassTable;
use base::{Name, NameList, Names, NoMemory};
use lang_meaning::{
    BUILT_IN_CLASSES, ClassId, ClassRow, SlotRow, SlotRows, built_in_class, class_text,
};
use std::alloc::Global;

/// All built-in classes, their names taken up by the table of names, which keeps its names and may
/// have gained some after `NoMemory` too.
pub fn all_built_in(alloc: Global, names: &mut Names) -> Result<ClassTable, NoMemory>
    ensures first { IfOk result (λ table. AreFirst names.new table 34) }
    ensures extends { Extends names.old names.new }
{
    let mut table = ClassTable::new(alloc);
    for class in 0..BUILT_IN_CLASSES as u32 {
        add_built_in(alloc, &mut table, names, class)?;
    }
    Ok(table)
}

// The next built-in class.
fn add_built_in(
    alloc: Global,
    table: &mut ClassTable,
    names: &mut Names,
    class: u32,
) -> Result<(), NoMemory>
    requires below { class < 34 }
    requires first { AreFirst names.old table.old class }
    ensures first { OnOk result (AreFirst names.new table.new (class + 1)) }
    ensures extends { Extends names.old names.new }
{
    let name = class_name(names, class)?;
    let own = built_in_own(alloc, names, class)?;
    let row = built_in_row(alloc, table, name, class, &own)?;
    table.add(row, own)?;
    Ok(())
}

// The name of a built-in class.
fn class_name(names: &mut Names, class: u32) -> Result<Name, NoMemory>
    requires below { class < 34 }
    ensures name { IfOk result (λ name. slice_get names.new name.0 ≡ slice_get class_texts class) }
    ensures extends { Extends names.old names.new }
{
    let Some(text) = class_text(class) else {
        unreachable!()
    };
    names.intern(text.as_bytes())
}

// What a built-in class says of slots itself: each is its own initarg.
fn built_in_own(alloc: Global, names: &mut Names, class: u32) -> Result<SlotRows, NoMemory>
    ensures own { IfOk result (λ own. SaysSlots names.new (built_in_own class) own) }
    ensures extends { Extends names.old names.new }
{
    match class {
        25 => own_pair(alloc, names, "format-string", "format-arguments"),
        29 => own_pair(alloc, names, "object", "expected-class"),
        30 => own_one(alloc, names, "name"),
        _ => Ok(SlotRows::new(alloc)),
    }
}

// One slot of this name.
fn own_one(alloc: Global, names: &mut Names, text: &str) -> Result<SlotRows, NoMemory>
    requires short { length text.now ≤ 263 }
    ensures own { IfOk result (λ own. SaysSlots names.new (text.now ∷ []) own) }
    ensures extends { Extends names.old names.new }
{
    let mut own = SlotRows::new(alloc);
    add_own(alloc, names, &mut own, text)?;
    Ok(own)
}

// Two slots of these names.
fn own_pair(
    alloc: Global,
    names: &mut Names,
    first: &str,
    second: &str,
) -> Result<SlotRows, NoMemory>
    requires first_short { length first.now ≤ 263 }
    requires second_short { length second.now ≤ 263 }
    ensures own { IfOk result (λ own. SaysSlots names.new (first.now ∷ second.now ∷ []) own) }
    ensures extends { Extends names.old names.new }
{
    let mut own = own_one(alloc, names, first)?;
    add_own(alloc, names, &mut own, second)?;
    Ok(own)
}

// One slot more, which is its own initarg.
fn add_own(alloc: Global, names: &mut Names, own: &mut SlotRows, text: &str) -> Result<(), NoMemory>
    requires short { length text.now ≤ 263 }
    ensures own { OnOk result ((ts : List (List ℕ)) → SaysSlots names.old ts own.old → SaysSlots names.new (ts ++ text.now ∷ []) own.new) }
    ensures extends { Extends names.old names.new }
{
    let name = names.intern(text.as_bytes())?;
    let initargs = one_initarg(alloc, name)?;
    own.push(SlotRow {
        name,
        initargs,
        initform: None,
    })?;
    Ok(())
}

// The name alone.
fn one_initarg(alloc: Global, name: Name) -> Result<NameList, NoMemory>
    ensures { IfOk result (λ initargs. initargs ≡ name ∷ []) }
{
    let mut initargs = NameList::new(alloc);
    initargs.push(name)?;
    Ok(initargs)
}

// The classes above a built-in class, in order.
fn built_in_above(class: u32) -> &'static [ClassId]
    requires { class < 34 }
    ensures { slice_get built_in_precedence class ≡ Some (class ∷ result.now) }
{
    let Some(built_in) = built_in_class(class as usize) else {
        unreachable!()
    };
    built_in.above
}

// The row of a built-in class.
fn built_in_row(
    alloc: Global,
    table: &ClassTable,
    name: Name,
    class: u32,
    own: &SlotRows,
) -> Result<ClassRow, NoMemory>
    requires { class < 34 }
    ensures name { IfOk result (λ row. row.name ≡ name) }
    ensures concrete { IfOk result (λ row. row.abstract_class ≡ false) }
    ensures precedence { IfOk result (λ row. slice_get built_in_precedence class ≡ Some row.precedence) }
    ensures made { IfOk result (AreSlotsOf table.now.own own.now class) }
{
    let above = built_in_above(class);
    let inherited = said_by(alloc, table.own(), above)?;
    row_of(
        alloc,
        name,
        class as ClassId,
        above,
        inherited,
        own.as_slice(),
        false,
    )
}
