// Data of a text, printed again.

ghost use Rattle.std.specs.Prelude.{◌≤◌};

use crate::named::is_spelled;
use crate::tables::DEPTH;
use base::{Datum, Names};
use front_reader::print_datum;
use test_rows::RowAnswer;

/// Data. The answer is each of them as it is printed, with a blank between them.
pub fn answer_row(got: &mut RowAnswer, names: &Names, data: &[Datum]) -> Option<()> {
    for datum in data {
        got.begin();
        put_datum(got, names, datum)?;
    }
    Some(())
}

// Prints a datum that can be printed.
#[tactic(auto, using(base::specs::DataFormed::formed_told))]
fn put_datum(got: &mut RowAnswer, names: &Names, datum: &Datum) -> Option<()> {
    if !datum.is_formed() || !is_spelled(datum, names, DEPTH) || datum.depth() > 256 {
        return None;
    }
    let printed = got.kept(print_datum(got.alloc, datum, names))?;
    got.put_bytes(printed.as_slice());
    drop(printed);
    Some(())
}
