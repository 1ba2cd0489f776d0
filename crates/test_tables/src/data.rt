// What is computed of a datum.

use crate::tables::DEPTH;
use base::{Datum, Names};
use test_rows::{RowAnswer, Style, show};

/// Data. The answer for each is its size, its depth, whether it is in form, and a copy of it.
pub fn answer_row(got: &mut RowAnswer, names: &Names, data: &[Datum]) -> Option<()> {
    for datum in data {
        got.put("size ");
        got.put(datum.size());
        got.put(" depth ");
        got.put(datum.depth());
        got.put(if datum.is_formed() {
            " in form "
        } else {
            " not in form "
        });
        let copy = got.kept(datum.copy(got.alloc))?;
        let shown = show(got, names, &copy, Style::Placed, DEPTH);
        drop(copy);
        shown?;
    }
    Some(())
}
