// Generic functions, found by their names.

ghost use Rattle.std.specs.Prelude.{◌≡◌, ◌++◌, ◌∷◌, [], ◌<◌, ◌≤◌, true, false, List, length, slice_get, Some, OnOk, OnErr, IfOk, IfErr, MatchOption, min, take};
ghost use Rattle.std.specs.List.{list_all, sum_by};
ghost use Rattle.lang_meaning.specs.Lookup.{is_in};
ghost use Rattle.lang_meaning.specs.Cells.{generic_cells};
ghost use Rattle.lang_dispatch.specs.OfClasses.{with_classes};
ghost use Rattle.lang_dispatch.specs.Methods.{names_of, new_row, with_method, methods_at, with_first_methods, takes_at, row_is_whole, HaveOwnNames, IsRefusal};

use crate::cells::cells;
use crate::methods::{cut_methods, push_method, takes};
use crate::numbers::forget;
use base::{ItemList, Name, NoMemory, Place, Reason, Refusal, Stop};
use lang_meaning::{ClassRows, GenericId, GenericRow, GenericRows, MethodRow};
use std::alloc::Global;
use std::collections::BTreeMap;
use std::marker::Model;

/// Generic functions, each with a name of its own, and their methods: one class for each required
/// argument, and no two with the same qualifier and classes. Contracts see it as the list of rows.
#[derive(Drop)]
pub struct Generics {
    alloc: Global,
    rows: GenericRows,
    numbers: BTreeMap<usize, usize>,
}

impl Model for Generics {
    ghost use Rattle.std.specs.Prelude.{◌≡◌, true, List};
    ghost use Rattle.std.specs.List.{list_all};
    ghost use Rattle.lang_meaning.specs.declared.program.GenericRow.{GenericRow};
    ghost use Rattle.lang_dispatch.specs.Methods.{names_of, row_is_whole};
    ghost use Rattle.lang_dispatch.specs.NameNumbers.{IsIndexed};

    ghost Value = { List GenericRow };

    ghost view = { λ g. g.rows };

    ghost invariant = { λ g.
        IsIndexed (names_of g.rows) g.numbers × (list_all row_is_whole g.rows ≡ true) };
}

impl Generics {
    /// No generic function; takes no memory.
    pub fn new(alloc: Global) -> Generics
        ensures { result ≡ [] }
    {
        Generics {
            alloc,
            rows: ItemList::new(alloc),
            numbers: BTreeMap::new(alloc),
        }
    }

    /// A new generic function without methods, and its number. Condition: none has this name.
    /// Unchanged after `NoMemory`.
    pub fn define(&mut self, name: Name, required: u32, rest: bool) -> Result<GenericId, NoMemory>
        requires { is_in name.0 (names_of self.old) ≡ false }
        ensures number { IfOk result (λ id. id ≡ length self.old) }
        ensures ok { OnOk result (self.new ≡ self.old ++ new_row name required rest ∷ []) }
        ensures err { OnErr result (self.new ≡ self.old) }
    {
        let number = self.rows.len();
        self.rows.push(GenericRow {
            name,
            required,
            rest,
            methods: ItemList::new(self.alloc),
        })?;
        match self.numbers.insert(name.0, number) {
            Ok(_) => Ok(number),
            Err(_) => {
                self.rows.cut(number);
                Err(NoMemory)
            }
        }
    }

    /// The generic function of that name; none exactly where there is none. Takes no memory.
    pub fn find(&self, name: Name) -> Option<GenericId>
        ensures id { MatchOption result (is_in name.0 (names_of self.now) ≡ false)
            (λ id. slice_get (names_of self.now) id ≡ Some name.0) }
        ensures named { HaveOwnNames self.now }
    {
        match self.numbers.get(&name.0) {
            Some(number) => Some(*number),
            None => None,
        }
    }

    /// Adds the method, which has a rest name or none, to the generic function. `BadMethod` at the
    /// place exactly where the method is not congruent, or the same qualifier and classes are there
    /// already. Unchanged after a stop. Condition: the number is that of a generic function.
    pub fn add_method(
        &mut self,
        generic: GenericId,
        place: Place,
        rest: bool,
        method: MethodRow,
    ) -> Result<(), Stop>
        requires { generic < length self.old }
        ensures taken { OnOk result (self.new ≡ with_method self.old generic method) }
        ensures fits { OnOk result (takes_at self.old generic rest method ≡ true) }
        ensures refused { IfErr result
            (λ stop. IsRefusal place (takes_at self.old generic rest method) stop) }
        ensures unchanged { OnErr result (self.new ≡ self.old) }
    {
        let Some(row) = self.rows.get(generic) else {
            unreachable!()
        };
        if !takes(row, rest, &method) {
            return Err(Stop::Refused(Refusal {
                place,
                reason: Reason::BadMethod,
            }));
        }
        match push_method(self.alloc, &mut self.rows, generic, method) {
            Ok(()) => Ok(()),
            Err(_) => Err(Stop::NoMemory),
        }
    }

    /// Its first `len` generic functions stay, with their methods; the names of the others are free again. Condition: it
    /// has at least so many. Takes no memory.
    pub fn cut(&mut self, len: usize)
        requires { len ≤ length self.old }
        ensures { self.new ≡ take len self.old }
    {
        forget(&mut self.numbers, &self.rows, len);
        self.rows.cut(len);
    }

    /// The generic function keeps its first `len` methods. Condition: the number is that of a generic function, which has
    /// at least so many. Takes no memory.
    pub fn cut_methods(&mut self, generic: GenericId, len: usize)
        requires there { generic < length self.old }
        requires enough { len ≤ length (methods_at self.old generic) }
        ensures { self.new ≡ with_first_methods self.old generic len }
    {
        cut_methods(self.alloc, &mut self.rows, generic, len);
    }

    /// The rows, in the order of their numbers. Takes no memory.
    pub fn rows(&self) -> &GenericRows
        ensures rows { result.now ≡ self.now }
        ensures named { HaveOwnNames self.now }
        ensures whole { list_all row_is_whole self.now ≡ true }
    {
        &self.rows
    }

    /// The rows alone, for those who ask no more of generic functions. Takes no memory.
    pub fn into_rows(self) -> GenericRows
        ensures { result ≡ self }
    {
        self.rows
    }

    /// The cells of the dispatch tables with these classes: for each specialised argument one for
    /// each class, and for each tuple of groups one and the length of its chain. 262,145 where that
    /// is more.
    pub fn cells(&self, alloc: Global, classes: &ClassRows) -> Result<u64, NoMemory>
        ensures { IfOk result
            (λ n. n ≡ min (sum_by (generic_cells (with_classes classes.now)) self.now) 262145) }
    {
        cells(alloc, &self.rows, classes)
    }
}
