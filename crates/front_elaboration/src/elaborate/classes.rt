// Classes, and the methods of their slots' options (ISO/IEC 13816:2007, 15.1).

ghost use Rattle.std.specs.Prelude.{◌≡◌, length, IfOk, OnOk, OnErr};
ghost use Rattle.front_profile.specs.Elaborations.{prelude_count, arguments_of, accessor_head, with_method_at, with_accessor_in, with_slot_function, with_slot_functions, with_new_class, finish_class};
ghost use Rattle.front_profile.specs.Marks.{TablesGrow};
ghost use Rattle.front_profile.specs.Suits.{SuitsHead, SuitsClass, SuitsAccessorIn, SuitsFunction, SuitsFunctions};

use crate::elaborate::finish::one_more;
use crate::elaborate::methods::{NO_PLACE, add_generic, add_method, generic_named, want};
use base::{Name, NoMemory};
use front_profile::{Accessor, MethodHead, NewClass, SlotFunction, SlotFunctions, Tables};
use lang_meaning::{ClassId, ClassIds, GenericId, ProcedureId, Qualifier};
use std::alloc::Global;

// The class of all objects, that of a writer's new value.
const OBJECT: ClassId = 0;

// A class of the prelude is noted as one.
fn note_class(of_file: bool, tables: &mut Tables)
    ensures { tables.new ≡ record tables.old { prelude_classes = prelude_count of_file tables.old.prelude_classes (length tables.old.classes.rows) } }
{
    if !of_file {
        tables.prelude_classes = tables.classes.rows().len();
    }
}

// The class counts; its number.
fn add_class(class: &NewClass, of_file: bool, tables: &mut Tables) -> Result<ClassId, NoMemory>
    requires { SuitsClass class.now tables.old }
    ensures number { IfOk result (λ number. number ≡ length tables.old.classes.rows) }
    ensures ok { OnOk result (tables.new ≡ with_new_class class.now of_file tables.old) }
    ensures err { OnErr result (tables.new ≡ tables.old) }
{
    let supers = class.supers.as_slice();
    match tables.classes.define(
        class.name,
        NO_PLACE,
        supers,
        &class.slots,
        class.abstract_class,
    ) {
        Ok(number) => {
            note_class(of_file, tables);
            Ok(number)
        }
        Err(stop) => Err(want(stop)),
    }
}

// How many arguments the method takes.
fn arguments_of(kind: Accessor) -> u32
    ensures { result ≡ arguments_of kind }
{
    match kind {
        Accessor::Reads | Accessor::Asks => 1,
        Accessor::Writes => 2,
    }
}

// The method takes an instance of the class, a writer's behind the new value.
fn accessor_head(alloc: Global, kind: Accessor, class: ClassId) -> Result<MethodHead, NoMemory>
    ensures { IfOk result (λ head. head ≡ accessor_head kind class) }
{
    let mut classes = ClassIds::new(alloc);
    match kind {
        Accessor::Reads | Accessor::Asks => {}
        Accessor::Writes => classes.push(OBJECT)?,
    }
    classes.push(class)?;
    Ok(MethodHead {
        qualifier: Qualifier::Primary,
        classes,
    })
}

// A slot's method behind those of the generic function.
fn add_accessor_to(
    alloc: Global,
    generic: GenericId,
    kind: Accessor,
    class: ClassId,
    procedure: ProcedureId,
    tables: &mut Tables,
) -> Result<(), NoMemory>
    requires { SuitsHead generic (accessor_head kind class) procedure tables.old }
    ensures ok { OnOk result (tables.new ≡ with_method_at generic (accessor_head kind class) procedure tables.old) }
    ensures err { OnErr result (tables.new ≡ tables.old) }
{
    let head = accessor_head(alloc, kind, class)?;
    add_method(generic, head, procedure, tables)
}

// A slot's method under that name, whose generic function is there or is new.
fn add_accessor(
    alloc: Global,
    there: Option<GenericId>,
    name: Name,
    kind: Accessor,
    class: ClassId,
    procedure: ProcedureId,
    of_file: bool,
    tables: &mut Tables,
) -> Result<(), NoMemory>
    requires { SuitsAccessorIn there name kind class procedure of_file tables.old }
    ensures ok { OnOk result (tables.new ≡ with_accessor_in there name kind class procedure of_file tables.old) }
    ensures err { OnErr result (TablesGrow tables.old tables.new) }
{
    match there {
        Some(generic) => add_accessor_to(alloc, generic, kind, class, procedure, tables),
        None => {
            let generic = add_generic(name, arguments_of(kind), false, of_file, tables)?;
            add_accessor_to(alloc, generic, kind, class, procedure, tables)
        }
    }
}

// What a function of the class definition adds.
fn add_slot_function(
    alloc: Global,
    function: SlotFunction,
    class: ClassId,
    procedure: ProcedureId,
    of_file: bool,
    tables: &mut Tables,
) -> Result<(), NoMemory>
    requires { SuitsFunction function class procedure of_file tables.old }
    ensures ok { OnOk result (tables.new ≡ with_slot_function function class procedure of_file tables.old) }
    ensures err { OnErr result (TablesGrow tables.old tables.new) }
{
    match function {
        SlotFunction::Initform => Ok(()),
        SlotFunction::Method(name, kind) => {
            let there = generic_named(&tables.generics, name);
            add_accessor(alloc, there, name, kind, class, procedure, of_file, tables)
        }
    }
}

// What all functions of the class definition add, whose procedures are numbered from that one on.
fn add_slot_functions(
    alloc: Global,
    functions: &SlotFunctions,
    class: ClassId,
    first: ProcedureId,
    of_file: bool,
    tables: &mut Tables,
) -> Result<(), NoMemory>
    requires { SuitsFunctions functions.now class first of_file tables.old }
    ensures ok { OnOk result (tables.new ≡ with_slot_functions functions.now class first of_file tables.old) }
    ensures err { OnErr result (TablesGrow tables.old tables.new) }
{
    let mut procedure = first;
    for at in 0..functions.len() {
        let Some(function) = functions.get(at) else {
            unreachable!()
        };
        add_slot_function(alloc, *function, class, procedure, of_file, tables)?;
        procedure = one_more(procedure)?;
    }
    Ok(())
}

/// The class counts, and what its functions add. After `NoMemory` some of it may.
pub(crate) fn define_class(
    alloc: Global,
    class: &NewClass,
    first: ProcedureId,
    of_file: bool,
    tables: &mut Tables,
) -> Result<(), NoMemory>
    requires class { SuitsClass class.now tables.old }
    requires functions { SuitsFunctions class.now.functions (length tables.old.classes.rows) first of_file (with_new_class class.now of_file tables.old) }
    ensures ok { OnOk result (tables.new ≡ finish_class class.now first of_file tables.old) }
    ensures err { OnErr result (TablesGrow tables.old tables.new) }
{
    let number = add_class(class, of_file, tables)?;
    add_slot_functions(alloc, &class.functions, number, first, of_file, tables)
}
