// The cells of one generic function, as they are counted.

ghost use Rattle.std.specs.Prelude.{◌≡◌, ◌≤◌, [], length, take, IfOk, IfSome, OnOk};
ghost use Rattle.front_cells.specs.Flags.{AreFlags};
ghost use Rattle.front_cells.specs.Counts.{IsCountOf};

use crate::bounds::{most_cells, specialised_arguments};
use crate::flags::ClassFlags;
use crate::steps::adds_nothing;
use base::NoMemory;
use lang_dispatch::{CELLS_LIMIT, generic_cells};
use lang_meaning::{ClassRows, GenericRow};
use std::alloc::Global;

/// The cells of a generic function with so many methods.
#[derive(Clone, Copy)]
pub struct GenericCount {
    /// How many methods it has.
    pub methods: usize,
    /// No fewer than its specialised arguments, each of which has a cell for each class.
    pub specialised: u64,
    /// No fewer than its cells, or else than 262,145.
    pub most: u64,
    /// Whether the cells themselves were counted, and not only a number that is no less. Nothing is promised of it.
    pub exact: bool,
}

/// A number that is no less than its cells, where no flag is set, and none is then.
pub(crate) fn estimated(
    alloc: Global,
    classes: &ClassRows,
    flags: &mut ClassFlags,
    generic: &GenericRow,
) -> Result<GenericCount, NoMemory>
    requires { AreFlags [] flags.old }
    ensures counted { IfOk result (λ count. IsCountOf classes.now generic.now count) }
    ensures cleared { OnOk result (AreFlags [] flags.new) }
{
    let most = match most_cells(alloc, classes, flags, generic)? {
        Some(most) => most,
        None => CELLS_LIMIT,
    };
    Ok(GenericCount {
        methods: generic.methods.len(),
        specialised: specialised_arguments(generic),
        most,
        exact: false,
    })
}

/// Its cells, up to 262,145.
pub(crate) fn counted(
    alloc: Global,
    classes: &ClassRows,
    generic: &GenericRow,
) -> Result<GenericCount, NoMemory>
    ensures { IfOk result (λ count. IsCountOf classes.now generic.now count) }
{
    let most = generic_cells(alloc, generic, classes)?;
    Ok(GenericCount {
        methods: generic.methods.len(),
        specialised: specialised_arguments(generic),
        most,
        exact: true,
    })
}

// The count behind the classes from one on, where none of them adds a group, and none else; no flag is set, and none
// is then.
fn with_classes(
    classes: &ClassRows,
    flags: &mut ClassFlags,
    generic: &GenericRow,
    count: &GenericCount,
    from: usize,
) -> Option<GenericCount>
    requires cleared { AreFlags [] flags.old }
    requires there { from ≤ length classes.now }
    requires before { IsCountOf (take from classes.now) generic.now count.now }
    ensures counted { IfSome result (λ count. IsCountOf classes.now generic.now count) }
    ensures cleared { AreFlags [] flags.new }
{
    let mut most = count.most;
    for class in from..classes.len() {
        if !adds_nothing(classes, flags, generic, class) {
            return None;
        }
        most = most.saturating_add(count.specialised);
    }
    Some(GenericCount {
        methods: count.methods,
        specialised: count.specialised,
        most,
        exact: count.exact,
    })
}

/// The count of a generic function that has the same methods as before, behind the classes from one on. No flag is set,
/// and none is then.
pub(crate) fn recounted(
    alloc: Global,
    classes: &ClassRows,
    flags: &mut ClassFlags,
    generic: &GenericRow,
    count: &GenericCount,
    from: usize,
) -> Result<GenericCount, NoMemory>
    requires cleared { AreFlags [] flags.old }
    requires there { from ≤ length classes.now }
    requires before { IsCountOf (take from classes.now) generic.now count.now }
    ensures counted { IfOk result (λ count. IsCountOf classes.now generic.now count) }
    ensures cleared { OnOk result (AreFlags [] flags.new) }
{
    match with_classes(classes, flags, generic, count, from) {
        Some(count) => Ok(count),
        None => estimated(alloc, classes, flags, generic),
    }
}
