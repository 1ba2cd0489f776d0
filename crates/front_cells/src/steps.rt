// Whether a class more adds a group to a generic function.

ghost use Rattle.std.specs.Prelude.{◌≡◌, ◌<◌, [], true, length};
ghost use Rattle.lang_meaning.specs.Cells.{argument_classes};
ghost use Rattle.front_cells.specs.Flags.{AreFlags};
ghost use Rattle.front_cells.specs.Copies.{IsCopy, AddsNothing};

use crate::copies::is_copy;
use crate::flags::{ClassFlags, mark, unmark};
use lang_meaning::{ClassId, ClassRows, GenericRow};

// Whether it is found that the class has the group of an earlier one at an argument.
fn is_copy_at(
    classes: &ClassRows,
    flags: &mut ClassFlags,
    generic: &GenericRow,
    argument: usize,
    class: ClassId,
) -> bool
    requires { AreFlags [] flags.old }
    ensures copy { result ≡ true → IsCopy classes.now (argument_classes generic.now argument) class }
    ensures cleared { AreFlags [] flags.new }
{
    mark(flags, generic, argument);
    let copy = is_copy(classes, flags, class);
    unmark(flags, generic, argument);
    copy
}

// Whether there is one group at each argument, as no method tells classes apart, and the class is not its first.
fn has_one_group(generic: &GenericRow, class: ClassId) -> bool
    ensures { result ≡ true → (length generic.now.methods ≡ 0) × (0 < class) }
{
    generic.methods.len() == 0 && class > 0
}

/// Whether it is found that the class has the group of an earlier one at each argument, where no flag is set, and none
/// is then.
pub(crate) fn adds_nothing(
    classes: &ClassRows,
    flags: &mut ClassFlags,
    generic: &GenericRow,
    class: ClassId,
) -> bool
    requires { AreFlags [] flags.old }
    ensures nothing { result ≡ true → AddsNothing classes.now generic.now class }
    ensures cleared { AreFlags [] flags.new }
{
    if has_one_group(generic, class) {
        return true;
    }
    for argument in 0..generic.required {
        if !is_copy_at(classes, flags, generic, argument as usize, class) {
            return false;
        }
    }
    true
}
