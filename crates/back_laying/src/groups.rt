// The groups of classes at the arguments of a generic function.

ghost use Rattle.std.specs.Prelude.{◌≡◌, ◌++◌, ◌∷◌, [], OnOk, IfOk};
ghost use Rattle.lang_dispatch.specs.OfClasses.{with_classes};
ghost use Rattle.back_laying.specs.Grouped.{kept_of, AreGrouped};

use base::{ItemList, NoMemory};
use lang_dispatch::{ArgumentGroups, GroupNumbers, argument_groups};
use lang_meaning::{ClassIds, ClassRows, GenericRow};
use std::alloc::Global;

/// An argument at which there is more than one group of classes, with the number of each class's
/// group.
#[derive(Drop)]
pub(crate) struct SpecialisedArgument {
    pub(crate) argument: u32,
    pub(crate) numbers: GroupNumbers,
}

/// Arguments that are specialised.
pub(crate) type SpecialisedArguments = ItemList<SpecialisedArgument>;

/// The first class of each group at each argument, and the arguments that are specialised.
#[derive(Drop)]
pub(crate) struct GenericGroups {
    pub(crate) firsts: ItemList<ClassIds>,
    pub(crate) specialised: SpecialisedArguments,
}

impl GenericGroups {
    // Takes the groups at the next argument.
    fn take(&mut self, argument: u32, groups: ArgumentGroups) -> Result<(), NoMemory>
        ensures firsts { OnOk result (self.new.firsts ≡ self.old.firsts ++ groups.firsts ∷ []) }
        ensures specialised { OnOk result (self.new.specialised ≡ self.old.specialised ++ kept_of argument groups) }
    {
        let ArgumentGroups {
            firsts,
            numbers,
            specialised: _,
        } = groups;
        if firsts.len() != 1 {
            self.specialised
                .push(SpecialisedArgument { argument, numbers })?;
        }
        self.firsts.push(firsts)
    }
}

/// The groups at all required arguments. Those of each are found once.
pub(crate) fn generic_groups(
    alloc: Global,
    generic: &GenericRow,
    classes: &ClassRows,
) -> Result<GenericGroups, NoMemory>
    ensures { IfOk result (λ found. AreGrouped (with_classes classes.now) generic.now generic.now.required found) }
{
    let mut found = GenericGroups {
        firsts: ItemList::new(alloc),
        specialised: ItemList::new(alloc),
    };
    for argument in 0..generic.required {
        let groups = argument_groups(alloc, generic, argument as usize, classes)?;
        found.take(argument, groups)?;
    }
    Ok(found)
}
