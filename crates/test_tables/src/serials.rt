// Derived forms one after the other, with the new symbols that their steps make.

use crate::fresh::fresh_symbols;
use crate::steps::put_step;
use base::{Datum, FreshList, Kind, Name, Names, Symbol};
use test_rows::{RowAnswer, Style, show_symbol};

/// How many new symbols there are, and then forms, one after the other. The answer for each is its step
/// and how many new symbols there are then; and, behind all, the new symbols and the names of the forms.
pub fn answer_row(got: &mut RowAnswer, names: &mut Names, data: &[Datum]) -> Option<()> {
    let [first, forms @ ..] = data else {
        return None;
    };
    let Kind::Int(count) = &first.kind else {
        return None;
    };
    let before = names.len();
    let mut fresh = fresh_symbols(got, u64::try_from(*count).ok()?);
    let answered = put_all(got, names, &mut fresh, forms, before);
    drop(fresh);
    answered
}

// The steps of forms, the new symbols then, and the first names, so many.
fn put_all(
    got: &mut RowAnswer,
    names: &mut Names,
    fresh: &mut FreshList,
    forms: &[Datum],
    before: usize,
) -> Option<()> {
    put_steps(got, names, fresh, forms)?;
    put_symbols(got, names, fresh.as_slice())?;
    got.put("names");
    for number in 0..before {
        got.put(" ");
        got.put_bytes(names.text(Name(number))?);
    }
    Some(())
}

fn put_steps(
    got: &mut RowAnswer,
    names: &mut Names,
    fresh: &mut FreshList,
    forms: &[Datum],
) -> Option<()> {
    for form in forms {
        put_step(got, names, fresh, form, Style::Plain)?;
        got.put(" of ");
        got.put(fresh.len());
        got.put("; ");
    }
    Some(())
}

fn put_symbols(got: &mut RowAnswer, names: &Names, symbols: &[Symbol]) -> Option<()> {
    for symbol in symbols {
        show_symbol(got, names, *symbol)?;
        got.put(" ");
    }
    Some(())
}
