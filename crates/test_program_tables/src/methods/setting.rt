// The classes and the generic functions that a row has.

use crate::inputs::{id, ids, items, name, number, word};
use crate::method::method;
use base::{Datum, Name, Names};
use lang_dispatch::Generics;
use lang_meaning::{ClassIds, ClassRow, ClassRows, GenericId, SlotRows};
use std::alloc::Global;
use test_rows::RowAnswer;

/// Classes by their precedence lists, and generic functions.
#[derive(Drop)]
pub struct MethodRows {
    pub classes: ClassRows,
    pub generics: Generics,
}

impl MethodRows {
    /// No class and no generic function.
    pub fn nothing(alloc: Global) -> MethodRows {
        MethodRows {
            classes: ClassRows::new(alloc),
            generics: Generics::new(alloc),
        }
    }

    /// One class for each precedence list.
    pub fn take_classes(&mut self, got: &mut RowAnswer, lists: &[Datum]) -> Option<()> {
        for list in lists {
            let precedence = ids(got, items(list)?)?;
            self.push_class(got, precedence);
        }
        Some(())
    }

    /// `<object>`, and so many classes right below it that they are as many as is said.
    pub fn take_flat(&mut self, got: &mut RowAnswer, parts: &[Datum]) -> Option<()> {
        let [count] = parts else {
            return None;
        };
        for class in 0..id(count)? {
            let mut precedence = ClassIds::new(got.alloc);
            if class != 0 {
                got.add(&mut precedence, class);
            }
            got.add(&mut precedence, 0);
            self.push_class(got, precedence);
        }
        Some(())
    }

    fn push_class(&mut self, got: &mut RowAnswer, precedence: ClassIds) {
        let row = ClassRow {
            name: Name(self.classes.len()),
            precedence,
            slots: SlotRows::new(got.alloc),
            abstract_class: false,
        };
        got.add(&mut self.classes, row);
    }

    /// A new generic function: a name, its required arguments, and `rest` where it takes more.
    pub fn define(&mut self, got: &mut RowAnswer, names: &Names, parts: &[Datum]) -> Option<()> {
        let (parts, rest) = without_rest(names, parts);
        let [function, required] = parts else {
            return None;
        };
        let function = name(function)?;
        let required = number(required)?;
        if self.generics.find(function).is_some() {
            return None;
        }
        got.kept(self.generics.define(function, required, rest))?;
        Some(())
    }

    /// Adds methods to the generic function of a name.
    pub fn add(&mut self, got: &mut RowAnswer, names: &Names, parts: &[Datum]) -> Option<()> {
        let [function, methods @ ..] = parts else {
            return None;
        };
        let generic = self.generic(function)?;
        for method in methods {
            self.add_one(got, names, generic, method)?;
        }
        Some(())
    }

    fn add_one(
        &mut self,
        got: &mut RowAnswer,
        names: &Names,
        generic: GenericId,
        datum: &Datum,
    ) -> Option<()> {
        let (parts, rest) = without_rest(names, items(datum)?);
        if generic >= self.generics.rows().len() {
            return None;
        }
        let row = method(got, names, parts)?;
        match self.generics.add_method(generic, datum.place, rest, row) {
            Ok(()) => Some(()),
            Err(stop) => {
                got.begin();
                got.put_stop(stop);
                Some(())
            }
        }
    }

    /// The number of the generic function of a name.
    pub fn generic(&self, function: &Datum) -> Option<GenericId> {
        self.generics.find(name(function)?)
    }
}

// The items without the word `rest` at their end, and whether it stands there.
fn without_rest<'a>(names: &Names, data: &'a [Datum]) -> (&'a [Datum], bool) {
    match data {
        [front @ .., last] if word(names, last) == Some("rest") => (front, true),
        _ => (data, false),
    }
}
