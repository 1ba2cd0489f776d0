// Dispatch tables: how a call of a generic function finds its methods.

ghost use Rattle.std.specs.Prelude.{◌≡◌, ◌≤◌, List, Some, MatchOption, length, slice_get};
ghost use Rattle.lang_meaning.specs.declared.program.ClassRow.{ClassRow as Class};
ghost use Rattle.lang_meaning.specs.declared.program.GenericRow.{GenericRow as Generic};
ghost use Rattle.lang_meaning.specs.Classes.{chain};
ghost use Rattle.lang_dispatch.specs.OfClasses.{with_classes};
ghost use Rattle.lang_dispatch.specs.Chains.{seen};
ghost use Rattle.lang_dispatch.specs.Tables.{AreTablesOf, AreCalled};

use crate::chain::Chain;
use crate::table::Table;
use base::ItemList;
use lang_meaning::{ClassId, GenericId};

/// The tables of generic functions: for each argument the group of each class, and for each tuple
/// of groups the chain.
#[derive(Drop)]
pub struct Tables {
    tables: ItemList<Table>,
}

impl Tables {
    /// Tables that are made.
    pub(crate) fn of(tables: ItemList<Table>) -> Tables
        ensures { result ≡ record { tables = tables } }
    {
        Tables { tables }
    }

    /// The chain of a call of that generic function with arguments of these classes; none exactly
    /// where no primary method applies (ISO/IEC 13816:2007, 15.3.4). Condition: the number is that
    /// of a generic function, and there are as many classes as required arguments, each the number of
    /// a class.
    ///
    /// Takes no memory. Its steps are one look at the table of the generic function, for each
    /// required argument one at the map of the argument and one at the number that the map has for
    /// the class, and one at the cell of the number that these make. So its time grows with the
    /// required arguments alone: no method, no precedence list and no other class is looked at.
    pub fn chain(&self, generic: GenericId, classes: &[ClassId]) -> Option<&Chain>
        ensures { (generics : List Generic) → (rows : List Class) → (g : Generic)
            → AreTablesOf (with_classes rows) generics self.now
            → slice_get generics generic ≡ Some g
            → AreCalled (with_classes rows) g classes.now
            → MatchOption result (chain (with_classes rows) g classes.now ≡ None)
            (λ c. chain (with_classes rows) g classes.now ≡ Some (seen c.now)) }
    {
        match self.of_generic(generic) {
            Some(table) => table.chain(classes),
            None => None,
        }
    }

    // The table of that generic function.
    fn of_generic(&self, generic: GenericId) -> Option<&Table>
        ensures { MatchOption result (length self.now.tables ≤ generic)
            (λ table. slice_get self.now.tables generic ≡ Some table.now) }
    {
        self.tables.get(generic)
    }
}
