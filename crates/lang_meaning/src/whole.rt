// Whole programs: rows that keep what a program has to be.

ghost use Rattle.std.specs.Prelude.{◌≡◌, true};
ghost use Rattle.lang_meaning.specs.Facts.{is_whole};
ghost use Rattle.lang_meaning.specs.ProgramCounts.{program_nodes};

use crate::program::ProgramRows;
use std::marker::Model;

/// A program: rows whose ids are in range, whose primitives have their arguments, and whose sizes are
/// within their limits; in every form of theirs all names are bound where they stand. Contracts see it
/// as its rows.
#[derive(Drop)]
pub struct Program {
    rows: ProgramRows,
}

impl Model for Program {
    ghost use Rattle.lang_meaning.specs.declared.program.ProgramRows.{ProgramRows};

    ghost Value = { ProgramRows };

    ghost use Rattle.base.specs.contracts.datum.Datum as datum;
    ghost use Rattle.lang_meaning.specs.contracts.core_form.Core as core;
    ghost use Rattle.std.specs.Coded.{codes};

    ghost coded = { Prim.hlevel (codes, datum.the_row.coded, core.the_row.coded) };

    ghost view = { λ p. p.rows };

    ghost use Rattle.std.specs.Prelude.{◌≡◌, true};
    ghost use Rattle.lang_meaning.specs.Facts.{is_whole};

    ghost invariant = { λ p. is_whole p.rows ≡ true };
}

impl Program {
    /// The program of these rows, which are whole.
    pub fn new(rows: ProgramRows) -> Program
        requires { is_whole rows ≡ true }
        ensures { result ≡ rows }
    {
        Program { rows }
    }

    /// Its rows, which are whole.
    pub fn rows(&self) -> &ProgramRows
        ensures same { result.now ≡ self.now }
        ensures whole { is_whole self.now ≡ true }
    {
        &self.rows
    }

    /// Its nodes, at most 100,000. Takes no memory.
    pub fn nodes(&self) -> u64
        ensures { result ≡ program_nodes self.now }
    {
        self.rows.nodes()
    }
}
