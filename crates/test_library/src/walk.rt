// A body of the library beside a row of pieces.

use crate::pairs::Pairs;
use base::{Name, Names};
use lang_library_laws::{Piece, names};
use lang_meaning::{Binding, Clause, Core, CoreForm, Primitive};
use std::str;

/// The pieces that are left, and how literals and variables are matched.
#[derive(Drop)]
pub struct Walk<'a> {
    pub names: &'a Names,
    pub pieces: &'static [Piece],
    pub literals: &'a mut Pairs,
    pub variables: &'a mut Pairs,
}

/// The name of this number in the laws.
pub fn law_name(number: usize) -> Option<&'static str> {
    str::from_utf8(names()).ok()?.split('\n').nth(number)
}

impl Walk<'_> {
    // The next piece.
    fn next(&mut self) -> Option<Piece> {
        let (piece, left) = self.pieces.split_first()?;
        self.pieces = left;
        Some(*piece)
    }

    // Whether the next piece calls that name with so many arguments.
    fn is_call(&mut self, name: Name, arguments: usize) -> bool {
        match self.next() {
            Some(Piece::Call(number, count)) => count == arguments && self.is_named(number, name),
            _ => false,
        }
    }

    fn is_named(&self, number: usize, name: Name) -> bool {
        match (law_name(number), self.names.text(name)) {
            (Some(law), Some(text)) => law.as_bytes() == text,
            _ => false,
        }
    }

    // Whether it is that primitive of so many arguments.
    fn is_primitive(&mut self, which: Primitive, arguments: usize) -> bool {
        match self.next() {
            Some(Piece::Prim(law, count)) => count == arguments && law as u8 == which as u8,
            _ => false,
        }
    }

    // Whether it binds these variables.
    fn is_let(&mut self, bindings: &[Binding]) -> bool {
        let Some(Piece::Let(first, count)) = self.next() else {
            return false;
        };
        for (place, binding) in bindings.iter().enumerate() {
            let Some(number) = first.checked_add(place) else {
                return false;
            };
            if !self.variables.matches(number, binding.var) {
                return false;
            }
        }
        count == bindings.len()
    }

    /// Whether the form is the next pieces, told by a walk of at most so many steps inside one another.
    #[cycle(form)]
    pub fn form(&mut self, form: &Core, depth: u32) -> bool {
        if depth == 0 {
            return false;
        }
        match &form.form {
            CoreForm::Literal(id) => match self.next() {
                Some(Piece::Literal(number)) => self.literals.matches(number, *id),
                _ => false,
            },
            CoreForm::Local(var) => match self.next() {
                Some(Piece::Local(number)) => self.variables.matches(number, *var),
                _ => false,
            },
            CoreForm::SetLocal(var, value) => {
                self.form(value, depth - 1)
                    && match self.next() {
                        Some(Piece::SetLocal(number)) => self.variables.matches(number, *var),
                        _ => false,
                    }
            }
            CoreForm::Clauses(list) => {
                self.clauses(list.as_slice(), depth - 1)
                    && match self.next() {
                        Some(Piece::Clauses(count)) => count == list.len(),
                        _ => false,
                    }
            }
            CoreForm::Sequence(list) => {
                self.forms(list.as_slice(), depth - 1)
                    && match self.next() {
                        Some(Piece::Sequence(count)) => count == list.len(),
                        _ => false,
                    }
            }
            CoreForm::Let(list, body) => {
                self.values(list.as_slice(), depth - 1)
                    && self.form(body, depth - 1)
                    && self.is_let(list.as_slice())
            }
            CoreForm::Call(name, list) => {
                self.forms(list.as_slice(), depth - 1) && self.is_call(*name, list.len())
            }
            CoreForm::CallValue(list) => {
                self.forms(list.as_slice(), depth - 1)
                    && match self.next() {
                        Some(Piece::CallValue(count)) => count == list.len(),
                        _ => false,
                    }
            }
            CoreForm::Apply(function, list) => {
                self.form(function, depth - 1)
                    && self.form(list, depth - 1)
                    && match self.next() {
                        Some(Piece::Apply) => true,
                        _ => false,
                    }
            }
            CoreForm::Prim(which, list) => {
                self.forms(list.as_slice(), depth - 1) && self.is_primitive(*which, list.len())
            }
            CoreForm::While(test, body) => {
                self.form(test, depth - 1)
                    && self.form(body, depth - 1)
                    && match self.next() {
                        Some(Piece::While) => true,
                        _ => false,
                    }
            }
            _ => false,
        }
    }

    #[cycle(form)]
    fn forms(&mut self, forms: &[Core], depth: u32) -> bool {
        if depth == 0 {
            return false;
        }
        for form in forms {
            if !self.form(form, depth - 1) {
                return false;
            }
        }
        true
    }

    #[cycle(form)]
    fn values(&mut self, bindings: &[Binding], depth: u32) -> bool {
        if depth == 0 {
            return false;
        }
        for binding in bindings {
            if !self.form(&binding.value, depth - 1) {
                return false;
            }
        }
        true
    }

    #[cycle(form)]
    fn clauses(&mut self, clauses: &[Clause], depth: u32) -> bool {
        if depth == 0 {
            return false;
        }
        for clause in clauses {
            if !self.clause(clause, depth - 1) {
                return false;
            }
        }
        true
    }

    #[cycle(form)]
    fn clause(&mut self, clause: &Clause, depth: u32) -> bool {
        if depth == 0 || !self.form(&clause.test, depth - 1) {
            return false;
        }
        match &clause.body {
            Some(body) => {
                self.form(body, depth - 1)
                    && match self.next() {
                        Some(Piece::Clause) => true,
                        _ => false,
                    }
            }
            None => match self.next() {
                Some(Piece::Test) => true,
                _ => false,
            },
        }
    }
}
