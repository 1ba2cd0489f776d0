// The library beside the program of the laws.

use crate::pairs::Pairs;
use crate::walk::{Walk, law_name};
use base::{Datum, Kind, Names, Symbol};
use front_files::Whole;
use lang_library_laws::{DIGITS, LawFunction, LawLiteral, LawProcedure, literals, procedure};
use lang_meaning::{Callee, LiteralRow, Procedure, ProgramRows};
use std::alloc::Global;

// How deep forms may stand inside one another, each counted with the list that it stands in.
const DEPTH: u32 = 1000;

/// The library, and the literals that were matched so far.
#[derive(Drop)]
pub struct Comparison<'a> {
    alloc: Global,
    names: &'a Names,
    rows: &'a ProgramRows,
    literals: Pairs,
}

impl<'a> Comparison<'a> {
    /// Nothing matched yet.
    pub fn new(alloc: Global, whole: &'a Whole) -> Comparison<'a> {
        Comparison {
            alloc,
            names: &whole.names,
            rows: whole.program.rows(),
            literals: Pairs::new(alloc),
        }
    }

    /// The name of a function of the laws.
    pub fn name(&self, number: usize) -> &'static str {
        law_name(number).unwrap_or("?")
    }

    /// Whether the library's function of this name is that of the law.
    pub fn is_same(&mut self, number: usize, function: LawFunction) -> bool {
        match self.found(self.name(number)) {
            Some(found) => self.is_procedure(procedure(function), found),
            None => false,
        }
    }

    // The library's procedure of a name.
    fn found(&self, name: &str) -> Option<&'a Procedure> {
        for row in self.rows.functions.as_slice() {
            if self.names.text(row.name)? == name.as_bytes() {
                return match row.callee {
                    Callee::Procedure(id) => self.rows.procedures.get(id),
                    Callee::Generic(_) => None,
                };
            }
        }
        None
    }

    fn is_procedure(&mut self, law: LawProcedure, found: &Procedure) -> bool {
        let mut variables = Pairs::new(self.alloc);
        let same = are_parameters(&mut variables, &law, found)
            && self.is_body(&mut variables, law, found);
        drop(variables);
        same
    }

    fn is_body(&mut self, variables: &mut Pairs, law: LawProcedure, found: &Procedure) -> bool {
        let mut walk = Walk {
            names: self.names,
            pieces: law.body,
            literals: &mut self.literals,
            variables,
        };
        walk.form(&found.body, DEPTH) && walk.pieces.is_empty()
    }

    /// Whether the literals that were matched are equal.
    pub fn are_literals_same(&self) -> bool {
        for (law, library) in self.literals.as_slice() {
            match (literals().get(*law), self.rows.literals.get(*library)) {
                (Some(literal), Some(row)) => {
                    if !self.is_literal(*literal, row) {
                        return false;
                    }
                }
                _ => return false,
            }
        }
        self.literals.as_slice().len() == literals().len()
    }

    fn is_literal(&self, law: LawLiteral, row: &LiteralRow) -> bool {
        match (law, row) {
            (LawLiteral::Class(law), LiteralRow::Class(id)) => law == *id,
            (law, LiteralRow::Datum(datum)) => self.is_datum(law, datum),
            _ => false,
        }
    }

    fn is_datum(&self, law: LawLiteral, datum: &Datum) -> bool {
        match (law, &datum.kind) {
            (LawLiteral::Nil, Kind::Nil) => true,
            (LawLiteral::Integer(law), Kind::Int(number)) => law == *number,
            (LawLiteral::Character(law), Kind::Char(byte)) => law == *byte,
            (LawLiteral::Digits, Kind::Str(bytes)) => bytes.as_slice() == DIGITS,
            (LawLiteral::Truth, Kind::Sym(Symbol::Named(name))) => {
                self.names.text(*name) == Some(b"t".as_slice())
            }
            _ => false,
        }
    }
}

// Whether both have as many arguments, whose variables are matched in their order.
fn are_parameters(variables: &mut Pairs, law: &LawProcedure, found: &Procedure) -> bool {
    for (place, var) in found.required.as_slice().iter().enumerate() {
        if !variables.matches(place, *var) {
            return false;
        }
    }
    let rest = match found.rest {
        Some(var) => law.rest && variables.matches(law.required, var),
        None => !law.rest,
    };
    rest && found.required.len() == law.required
}
