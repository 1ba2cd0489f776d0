// What is asked of a program.

use crate::inputs::id;
use crate::programs::primitives::primitive;
use base::{Datum, Names};
use lang_meaning::{Procedure, ProgramRows, frame_words};
use test_checker::is_whole;
use test_rows::RowAnswer;

/// Puts a question.
pub fn ask(
    got: &mut RowAnswer,
    names: &Names,
    rows: &ProgramRows,
    question: &str,
    parts: &[Datum],
) -> Option<()> {
    match (question, parts) {
        ("whole", []) => {
            let is_whole = got.kept(is_whole(got.alloc, rows))?;
            got.push_yes_no(is_whole);
        }
        ("nodes", []) => got.push(rows.nodes()),
        ("frame", [id]) => got.push(frame_words(procedure(rows, id)?)),
        ("depth", [id]) => got.push(procedure(rows, id)?.body.depth()),
        ("arity", [which]) => got.push(primitive(names, which)?.arity()),
        _ => return None,
    }
    Some(())
}

// The procedure of a number.
fn procedure<'a>(rows: &'a ProgramRows, number: &Datum) -> Option<&'a Procedure> {
    rows.procedures.get(id(number)?)
}
