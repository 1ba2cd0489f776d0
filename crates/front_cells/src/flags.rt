// Which classes the methods of a generic function have at an argument, by a flag for each class.

ghost use Rattle.std.specs.Prelude.{◌≡◌, [], slice_index_or, IfOk};
ghost use Rattle.lang_meaning.specs.Cells.{argument_classes};
ghost use Rattle.front_cells.specs.Flags.{AreFlags, IsSet};

use base::{ItemList, NoMemory};
use lang_meaning::{ClassId, GenericRow, MethodRow};
use std::alloc::Global;

/// A flag for each class, in the order of classes.
pub(crate) type ClassFlags = ItemList<bool>;

/// Flags of so many classes, none of which is set.
pub(crate) fn no_flags(alloc: Global, classes: usize) -> Result<ClassFlags, NoMemory>
    ensures { IfOk result (λ flags. AreFlags [] flags) }
{
    let mut flags = ItemList::new(alloc);
    for _class in 0..classes {
        flags.push(false)?;
    }
    Ok(flags)
}

/// The class of a method at the argument; `<object>` where it has none.
pub(crate) fn class_at(method: &MethodRow, argument: usize) -> ClassId
    ensures { result ≡ slice_index_or method.now.classes argument 0 }
{
    match method.classes.get(argument) {
        Some(class) => *class,
        None => 0,
    }
}

// Sets the flag of a class, where it has one.
fn set(flags: &mut ClassFlags, class: ClassId, value: bool)
    ensures { IsSet class value flags.old flags.new }
{
    if class < flags.len() {
        flags.replace(class, value);
    }
}

/// Sets the flags of the classes that the methods have at the argument, where none was set.
pub(crate) fn mark(flags: &mut ClassFlags, generic: &GenericRow, argument: usize)
    requires { AreFlags [] flags.old }
    ensures { AreFlags (argument_classes generic.now argument) flags.new }
{
    for method in generic.methods.as_slice() {
        set(flags, class_at(method, argument), true);
    }
}

/// Clears them again.
pub(crate) fn unmark(flags: &mut ClassFlags, generic: &GenericRow, argument: usize)
    requires { AreFlags (argument_classes generic.now argument) flags.old }
    ensures { AreFlags [] flags.new }
{
    for method in generic.methods.as_slice() {
        set(flags, class_at(method, argument), false);
    }
}
