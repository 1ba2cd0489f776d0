// The classes of a program.

ghost use Rattle.std.specs.Prelude.{◌≡◌, ◌<◌, ◌≤◌, None, All, length, slice_get, take, OnOk, OnErr, IfOk, MatchResult};
ghost use Rattle.lang_meaning.specs.Classes.{precedence_of, slots_of};
ghost use Rattle.lang_meaning.specs.Lookup.{is_in};
ghost use Rattle.lang_meaning.specs.Objects.{built_in_classes};
ghost use Rattle.lang_classes.specs.InheritedPrecedence.{supers_fit};
ghost use Rattle.lang_classes.specs.InheritedSlots.{each_first};
ghost use Rattle.lang_classes.specs.InheritedClasses.{IsHierarchy, class_named, inherited_names, place_of_slot, refusal, with_class};
ghost use Rattle.base.specs.Names.{Extends};
ghost use Rattle.lang_classes.specs.InheritedBuiltIn.{AreBuiltIn};
ghost use Rattle.lang_classes.specs.Given.{given, StopsBy};

use crate::builtin::all_built_in;
use crate::definition::{inherited_names, new_class};
use crate::line::{is_among, precedence_of, supers_fit};
use crate::place::place_of_slot;
use crate::slot_spec::SlotSpecs;
use crate::table::ClassTable;
use base::{Name, NameList, Names, NoMemory, Place, Stop};
use lang_meaning::{ClassId, ClassRows};
use std::alloc::Global;
use std::marker::Model;

/// The classes of a program: the built-in ones, and then those of its definitions. Contracts see
/// their rows and what each says of slots in its own definition.
#[derive(Drop)]
pub struct Classes {
    alloc: Global,
    table: ClassTable,
}

impl Model for Classes {
    ghost use Rattle.lang_classes.specs.InheritedClasses.{Hierarchy, IsHierarchy};

    ghost Value = { Hierarchy };

    ghost view = { λ c. c.table };

    ghost invariant = { λ c. IsHierarchy c.table };
}

impl Classes {
    /// The built-in classes with their precedence lists and slots (ISO/IEC 13816:2007, 15 and 29.3).
    /// Their names and those of their slots stand in the table of names then, which keeps the names
    /// that are there; it may have gained some after `NoMemory` too.
    pub fn builtin(alloc: Global, names: &mut Names) -> Result<Classes, NoMemory>
        ensures built_in { IfOk result (AreBuiltIn names.new) }
        ensures names { Extends names.old names.new }
    {
        let table = all_built_in(alloc, names)?;
        Ok(Classes { alloc, table })
    }

    /// The class of a name; none exactly where no class has it. Takes no memory, and looks the name
    /// up in an ordered map.
    pub fn find(&self, name: Name) -> Option<ClassId>
        ensures class { result ≡ class_named self.now.rows name }
        ensures hierarchy { IsHierarchy self.now }
    {
        self.table.find(name)
    }

    /// The rows, by the numbers of the classes. Takes no memory.
    pub fn rows(&self) -> &ClassRows
        ensures rows { result.now ≡ self.now.rows }
        ensures hierarchy { IsHierarchy self.now }
    {
        self.table.rows()
    }

    /// The rows alone, for those who ask no more of classes. Takes no memory.
    pub fn into_rows(self) -> ClassRows
        ensures { result ≡ self.rows }
    {
        self.table.into_rows()
    }

    /// The precedence list of a class: the class itself, and what stands above it (ISO/IEC
    /// 13816:2007, 15). Takes no memory: it is the list that the row of the class keeps.
    pub fn precedence(&self, class: ClassId) -> &[ClassId]
        requires { class < length self.now.rows }
        ensures { result.now ≡ precedence_of (slice_get self.now.rows class) }
    {
        precedence_of(self.table.rows(), class)
    }

    /// Whether a class is `above` or stands below it. Takes no memory, and looks at the precedence
    /// list of the class alone.
    pub fn is_subclass(&self, class: ClassId, above: ClassId) -> bool
        requires { class < length self.now.rows }
        ensures { result ≡ is_in above (precedence_of (slice_get self.now.rows class)) }
    {
        is_among(above, self.precedence(class))
    }

    /// The place of the slot of a name in the instances of a class; none exactly where the class
    /// has no such slot. Takes no memory, and looks at the slots of the class alone, at most 64.
    pub fn slot_place(&self, class: ClassId, slot: Name) -> Option<u32>
        requires { class < length self.now.rows }
        ensures { result ≡ place_of_slot (slots_of (slice_get self.now.rows class)) slot }
    {
        let Some(row) = self.table.rows().get(class) else {
            unreachable!()
        };
        match place_of_slot(row.slots.as_slice(), slot) {
            Some(place) => Some(place as u32),
            None => None,
        }
    }

    /// A new class of that name, with the next number (ISO/IEC 13816:2007, 15). Its precedence list
    /// is the class itself and then the lists of its direct superclasses joined in order, each class
    /// kept at its last place; without superclasses the one superclass is `<standard-object>`. Its
    /// slots are those of that list from the least specific class to the most specific one, each
    /// name kept at its first place, with the initform of the most specific class that gives one,
    /// and all initargs.
    ///
    /// Refused by `BadSupers` at `place` where the superclasses do not go together, by `BadSlot` at
    /// `place` where they have more than 64 slots by themselves, and by `BadSlot` at the first slot
    /// that repeats an earlier one of the definition or is one past 64. Unchanged after a stop.
    pub fn define(
        &mut self,
        name: Name,
        place: Place,
        supers: &[ClassId],
        slots: &SlotSpecs,
        abstract_class: bool,
    ) -> Result<ClassId, Stop>
        requires in_range { All (λ class. class < length self.old.rows) supers.now }
        requires new { class_named self.old.rows name ≡ None }
        ensures number { IfOk result (λ class. class ≡ length self.old.rows) }
        ensures ok { OnOk result (self.new ≡ with_class self.old name supers.now (given slots.now) abstract_class) }
        ensures judged { MatchResult result (λ _. refusal self.old place supers.now (given slots.now) ≡ None)
            (StopsBy (refusal self.old place supers.now (given slots.now))) }
        ensures err { OnErr result (self.new ≡ self.old) }
        ensures hierarchy { IsHierarchy self.new }
    {
        let alloc = self.alloc;
        match new_class(
            alloc,
            &self.table,
            name,
            place,
            supers,
            slots,
            abstract_class,
        ) {
            Ok(new) => match self.table.add(new.row, new.own) {
                Ok(class) => Ok(class),
                Err(_) => Err(Stop::NoMemory),
            },
            Err(stop) => Err(stop),
        }
    }

    /// Its first `len` classes stay, the built-in ones among them; the names of the others are free again. Condition: it has
    /// at least so many. Takes no memory.
    pub fn cut(&mut self, len: usize)
        requires built_in { built_in_classes ≤ len }
        requires enough { len ≤ length self.old.rows }
        ensures cut { self.new ≡ record { rows = take len self.old.rows; own = take len self.old.own } }
        ensures hierarchy { IsHierarchy self.new }
    {
        self.table.cut(len);
    }

    /// Whether these may be the direct superclasses of one class: each is `<standard-object>`,
    /// `<error>`, `<simple-error>` or a class of the file, none is repeated, and no two share more
    /// than `<standard-object>` and `<object>`. Takes no memory.
    pub fn supers_fit(&self, supers: &[ClassId]) -> bool
        requires { All (λ class. class < length self.now.rows) supers.now }
        ensures { result ≡ supers_fit self.now.rows supers.now }
    {
        supers_fit(self.table.rows(), supers)
    }

    /// The names of the slots that a class of these direct superclasses inherits, each once.
    pub fn inherited_names(&self, supers: &[ClassId]) -> Result<NameList, NoMemory>
        ensures { IfOk result (λ names. names ≡ each_first (inherited_names self.now supers.now)) }
    {
        inherited_names(self.alloc, &self.table, supers)
    }
}
