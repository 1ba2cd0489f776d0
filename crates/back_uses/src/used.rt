// Names that were found to be used: as global variables, as dynamic ones, and as names of conditions.

ghost use Rattle.std.specs.Prelude.{[], ◌∷◌, OnOk};
ghost use Rattle.back_words.specs.Uses.{as_dynamic, as_symbol, of_global, of_dynamic};
ghost use Rattle.back_uses.specs.Used.{AreUsed, AreAdded};

use base::{ItemList, Name, NameList, NoMemory};
use std::alloc::Global;

/// The names that forms use, in the order in which they do and each as often: as global variables
/// and as dynamic ones, by their numbers, and as names of conditions.
#[derive(Drop)]
pub struct UsedNames {
    pub globals: ItemList<usize>,
    pub dynamics: ItemList<usize>,
    pub symbols: NameList,
}

impl UsedNames {
    // No names; takes no memory.
    pub(crate) fn new(alloc: Global) -> UsedNames
        ensures { AreUsed [] result }
    {
        UsedNames {
            globals: ItemList::new(alloc),
            dynamics: ItemList::new(alloc),
            symbols: NameList::new(alloc),
        }
    }

    // A global variable, and the condition that it has no value.
    pub(crate) fn add_global(&mut self, name: Name) -> Result<(), NoMemory>
        ensures { OnOk result (AreAdded self.old (of_global name.0) self.new) }
    {
        self.globals.push(name.0)?;
        self.symbols.push(name)
    }

    // A dynamic variable, and the condition that it has no value.
    pub(crate) fn add_dynamic(&mut self, name: Name) -> Result<(), NoMemory>
        ensures { OnOk result (AreAdded self.old (of_dynamic name.0) self.new) }
    {
        self.dynamics.push(name.0)?;
        self.symbols.push(name)
    }

    // A dynamic variable that gets a value.
    pub(crate) fn add_bound(&mut self, name: Name) -> Result<(), NoMemory>
        ensures { OnOk result (AreAdded self.old (as_dynamic name.0 ∷ []) self.new) }
    {
        self.dynamics.push(name.0)
    }

    // The name of a condition.
    pub(crate) fn add_symbol(&mut self, name: Name) -> Result<(), NoMemory>
        ensures { OnOk result (AreAdded self.old (as_symbol name.0 ∷ []) self.new) }
    {
        self.symbols.push(name)
    }
}
