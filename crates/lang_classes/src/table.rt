// Classes by their numbers, found by their names too.

ghost use Rattle.std.specs.Prelude.{◌≡◌, ◌≤◌, ◌++◌, [], ◌∷◌, None, length, take, OnOk, OnErr, IfOk};
ghost use Rattle.lang_classes.specs.InheritedClasses.{IsRow, AreClasses, class_named};

use crate::numbers::forget;
use crate::slots::OwnSlots;
use base::{Name, NoMemory};
use lang_meaning::{ClassId, ClassRow, ClassRows, SlotRows};
use std::alloc::Global;
use std::collections::BTreeMap;
use std::marker::Model;

/// Classes, each with what it says of slots itself. Contracts see the rows and what each says.
#[derive(Drop)]
pub struct ClassTable {
    rows: ClassRows,
    own: OwnSlots,
    numbers: BTreeMap<usize, ClassId>,
}

impl Model for ClassTable {
    ghost use Rattle.lang_classes.specs.InheritedClasses.{Hierarchy};

    ghost Value = { Hierarchy };

    ghost use Rattle.lang_classes.specs.Table.{IsIndexed};

    ghost view = { λ t. record { rows = t.rows; own = t.own } };

    ghost invariant = { λ t. IsIndexed (record { rows = t.rows; own = t.own }) t.numbers };
}

impl ClassTable {
    /// No class; takes no memory.
    pub fn new(alloc: Global) -> ClassTable
        ensures { result ≡ record { rows = []; own = [] } }
    {
        ClassTable {
            rows: ClassRows::new(alloc),
            own: OwnSlots::new(alloc),
            numbers: BTreeMap::new(alloc),
        }
    }

    /// The class of a name; none exactly where no class has it. Takes no memory.
    pub fn find(&self, name: Name) -> Option<ClassId>
        ensures { result ≡ class_named self.now.rows name }
    {
        self.numbers.get(&name.0).copied()
    }

    /// The rows, by the numbers of the classes. Takes no memory.
    pub fn rows(&self) -> &ClassRows
        ensures rows { result.now ≡ self.now.rows }
        ensures classes { AreClasses self.now }
    {
        &self.rows
    }

    /// The rows alone. Takes no memory.
    pub fn into_rows(self) -> ClassRows
        ensures { result ≡ self.rows }
    {
        self.rows
    }

    /// What each class says of slots itself. Takes no memory.
    pub fn own(&self) -> &OwnSlots
        ensures { result.now ≡ self.now.own }
    {
        &self.own
    }

    /// One class more, with the next number. After `NoMemory` the table is unchanged.
    pub fn add(&mut self, row: ClassRow, own: SlotRows) -> Result<ClassId, NoMemory>
        requires new { class_named self.old.rows row.name ≡ None }
        requires right { IsRow self.old.rows (self.old.own ++ own ∷ []) (length self.old.rows) row }
        ensures number { IfOk result (λ class. class ≡ length self.old.rows) }
        ensures ok { OnOk result (self.new ≡ record { rows = self.old.rows ++ row ∷ []; own = self.old.own ++ own ∷ [] }) }
        ensures err { OnErr result (self.new ≡ self.old) }
        ensures classes { AreClasses self.new }
    {
        let number = self.rows.len();
        let name = row.name;
        self.rows.push(row)?;
        if let Err(stop) = self.own.push(own) {
            self.rows.cut(number);
            return Err(stop);
        }
        match self.numbers.insert(name.0, number) {
            Ok(_) => Ok(number),
            Err(_) => {
                self.rows.cut(number);
                self.own.cut(number);
                Err(NoMemory)
            }
        }
    }
    /// Its first `len` classes stay; takes no memory.
    pub fn cut(&mut self, len: usize)
        requires { len ≤ length self.old.rows }
        ensures { self.new ≡ record { rows = take len self.old.rows; own = take len self.old.own } }
    {
        forget(&mut self.numbers, &self.rows, len);
        self.rows.cut(len);
        self.own.cut(len);
    }
}
